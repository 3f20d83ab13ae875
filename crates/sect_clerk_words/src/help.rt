// What the clerk says of itself.

ghost use Rattle.std.specs.Prelude.{◌≡◌};
ghost use Rattle.sect_clerk_words.specs.Help.{help_text};

use crate::verb::{Topic, Verb};

const CLERK_HELP: &[u8] = b"clerk: helps those who work at the desk, and changes nothing.\n\
\n\
Commands:\n\
\x20 clerk check              reads requests from standard input, one a line, and names each line that desk run would refuse\n\
\x20 clerk demand             prints how many ask for each course, hold it and wait for it, and its limit\n\
\x20 clerk explain PLACE      prints in words why the request at a place of the history found no place in a section\n\
\x20 clerk log                prints the history as a script that makes it again, with its replies and placements\n\
\x20 clerk timetable STUDENT  prints the week of a student, day by day in order of time\n\
\x20 clerk try                reads requests from standard input, one a line, and answers each as it would be now\n\
\x20 clerk COMMAND --help     says more of a command, with its options\n\
\x20 clerk --help             prints this text\n\
\x20 clerk --version          prints the version\n\
\n\
Each command but check takes --db FILE or --journal FILE, where the history is kept. Without one it is empty.\n\
Nothing is ever added to it.\n";

const CHECK_HELP: &[u8] =
    b"clerk check: reads requests from standard input, one a line, as desk run does, asks nothing, and names each line that\n\
desk run would refuse, with the first word that doesn't fit and the form that is expected there:\n\
\n\
\x20 line 2 word 4 \"012\": expected an id: a number of 32 bits, without a sign and without a zero in front\n\
\n\
A remark tells of two spaces, a byte order mark, a tab and a carriage return. Lines are counted from 1, the empty ones\n\
and those that begin with # among them, and words of a line from 1. Nothing is printed where desk run would read all.\n\
It ends as desk run would: with 0 where every line is read, else with 3, and the number of the first that isn't.\n\
\n\
Options: none.\n";

const DEMAND_HELP: &[u8] =
    b"clerk demand [--db FILE | --journal FILE]: prints a line for each course, in order of id:\n\
\n\
\x20 course ID asked N held N waiting N limit L\n\
So many students ask for it by one of their requests, so many hold it, and so many entries wait for it. The limit is -\n\
where there is none. Where there is no course there is the line `none`.\n\
\n\
Options:\n\
\x20 --db FILE       the history is in this database of SQLite (default: there is none)\n\
\x20 --journal FILE  the history is in this journal (default: there is none)\n\
Either file is made where there is none. Only one of the two may be given.\n";

const EXPLAIN_HELP: &[u8] =
    b"clerk explain PLACE [--db FILE | --journal FILE]: prints in words why the request at a place of the history found no place in a\n\
section. A request's place is the number in front of its reply.\n\
\n\
\x20 course 1\n\
\x20   no reservation\n\
\x20     configuration 1\n\
\x20       section 7 is full (rule 16)\n\
A line names a decision, those that follow it stand below, and the last of them says what is in the way, with the\n\
number of the rule. Of a batch each blocked request is told behind a line `student ID rank POSITION`. A reply that\n\
doesn't block is told by `not blocked`, and a place at which no request stands by `place PLACE unknown`.\n\
\n\
Options:\n\
\x20 --db FILE       the history is in this database of SQLite (default: there is none)\n\
\x20 --journal FILE  the history is in this journal (default: there is none)\n\
Either file is made where there is none. Only one of the two may be given.\n";

const LOG_HELP: &[u8] =
    b"clerk log [--student ID] [--section ID] [--from PLACE] [--db FILE | --journal FILE]: prints the requests of the history as\n\
lines that desk run reads, each on its day, and behind each its place and reply and whom it let in from the\n\
wait-list, as comments:\n\
\n\
\x20 @2025-08-01 s11 3 drop 11 1\n\
\x20 # 6 dropped 1\n\
\x20 # placed 1 s12 1/-/1/7\n\
The whole log, read by desk run where no history is, makes the same history again.\n\
\n\
Options:\n\
\x20 --student ID    only what student ID asked, what names the student, and what placed the student (default: all)\n\
\x20 --section ID    only what names section ID, takes a place in it, or placed somebody in it (default: all)\n\
\x20 --from PLACE    only from this place on, from 0 to 4294967295 (default: 0)\n\
\x20 --db FILE       the history is in this database of SQLite (default: there is none)\n\
\x20 --journal FILE  the history is in this journal (default: there is none)\n\
Either file is made where there is none. Only one of the two may be given.\n";

const TIMETABLE_HELP: &[u8] =
    b"clerk timetable STUDENT [--db FILE | --journal FILE]: prints the week of a student: behind a line that names the student a\n\
line for each time at which a section that is held meets, day by day in order of time:\n\
\n\
\x20 student 11\n\
\x20 M/0900-0950/1-15 course 1 section 7\n\
A student that isn't known is told by `student STUDENT unknown`.\n\
\n\
Options:\n\
\x20 --db FILE       the history is in this database of SQLite (default: there is none)\n\
\x20 --journal FILE  the history is in this journal (default: there is none)\n\
Either file is made where there is none. Only one of the two may be given.\n";

const TRY_HELP: &[u8] =
    b"clerk try [--db FILE | --journal FILE]: reads requests from standard input, one a line, as desk run does, and answers each\n\
by a line as desk run would if it were the next one. Nothing is added: each line is tried on the history as it is.\n\
\n\
\x20 s11 4 enrol 11 1\n\
A line is answered by the place that the request would have and its reply. One that was answered before is answered\n\
again from its own place. It ends as desk run would.\n\
\n\
Options:\n\
\x20 --db FILE       the history is in this database of SQLite (default: there is none)\n\
\x20 --journal FILE  the history is in this journal (default: there is none)\n\
Either file is made where there is none. Only one of the two may be given.\n";

/// The text of the version.
pub const VERSION: &[u8] = b"clerk 0.1.0\n";

/// The text of a topic.
pub fn help_of(topic: Topic) -> &'static [u8]
    ensures { result.now ≡ help_text topic }
{
    match topic {
        Topic::Clerk => CLERK_HELP,
        Topic::Command(Verb::Check) => CHECK_HELP,
        Topic::Command(Verb::Demand) => DEMAND_HELP,
        Topic::Command(Verb::Explain) => EXPLAIN_HELP,
        Topic::Command(Verb::Log) => LOG_HELP,
        Topic::Command(Verb::Timetable) => TIMETABLE_HELP,
        Topic::Command(Verb::Try) => TRY_HELP,
    }
}
