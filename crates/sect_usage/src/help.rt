// What the desk says of itself.

ghost use Rattle.std.specs.Prelude.{◌≡◌};
ghost use Rattle.sect_usage.specs.Help.{help_text, version_text};

use crate::verb::{Topic, Verb};

const DESK_HELP: &[u8] =
    b"desk: a registrar's sectioning desk. It keeps offerings with their sections, students with their\n\
requests, reservations and a wait-list, and answers each request with a place or the reason why there is none.\n\
\n\
Commands:\n\
\x20 desk run                       reads requests from standard input, one a line, and answers each by a line\n\
\x20 desk serve --port P            answers requests over HTTP, of many connections at once\n\
\x20 desk import TABLE --first N    reads a table in CSV from standard input, and asks for what it says\n\
\x20 desk export TABLE              prints a table in CSV\n\
\x20 desk report KIND [ID]          prints a roll, the open places, a schedule, who waits or what is unmet\n\
\x20 desk plan STUDENT              prints the best whole schedule that a student could have\n\
\x20 desk survey                    prints why each unmet request can't be met now, and which sections are wanted\n\
\x20 desk audit                     checks the tree of each blocked reply again, and tells how many there are\n\
\x20 desk make N                    makes N offerings with their students, and tells how many requests are met\n\
\x20 desk COMMAND --help            says more of a command, with its options\n\
\x20 desk --help                    prints this text\n\
\x20 desk --version                 prints the version\n\
\n\
Each command but make takes --db FILE or --journal FILE, where the history is kept. Without one it begins empty\n\
and ends with the program.\n\
\n\
An example line, by which student 11 asks for course 1:\n\
\x20 s11 1 enrol 11 1\n";

const RUN_HELP: &[u8] =
    b"desk run [--db FILE | --journal FILE]: reads requests from standard input, one a line, and answers each by a line.\n\
\n\
\x20 r1 1 offering 1 course 1 - 3 config 1 - subpart 1 section 7 1 - M/0900-0950/1-15\n\
\x20 r1 2 student 11 max 18\n\
\x20 s11 1 enrol 11 1\n\
\x20 s11 2 drop 11 1\n\
A line begins with who asks (r and a registrar's number, s and a student's) and their number for it; @DAY in\n\
front of them names the day, as in @2025-09-01. The verbs are offering, student, requests, reserve, unreserve,\n\
expire, restrict, unrestrict, limit, cancel, enrol, drop, swap, wait, unwait and batch; the manual has each.\n\
An answer is the request's place and its reply. A request that was answered before is answered again, and acts\n\
once. Empty lines, and lines that begin with #, are passed over.\n\
\n\
Options:\n\
\x20 --db FILE       the history is kept in this database of SQLite (default: in memory, until the program ends)\n\
\x20 --journal FILE  the history is kept in this journal (default: in memory, until the program ends)\n\
Either file is made where there is none. Only one of the two may be given.\n";

const SERVE_HELP: &[u8] =
    b"desk serve --port P [--workers W] [--sessions N] [--db FILE | --journal FILE]: answers requests over HTTP/1.1 on\n\
127.0.0.1, port P, until it is ended. All connections ask one history.\n\
\n\
\x20 POST /students/ID/asks/N       a student's request number N; the body is JSON, as {\"verb\":\"enrol\",\"student\":11,\"courses\":[1]}\n\
\x20 POST /registrars/ID/asks/N     a registrar's; {\"verb\":\"line\",\"text\":\"..\"} holds any verb as a line has it\n\
\x20 GET /students/ID               a schedule, as report schedule prints it\n\
\x20 GET /sections/ID/roll          a roll\n\
\x20 GET /offerings/ID/open         the open places of an offering\n\
\x20 GET /waiting, GET /unmet       who waits, and what is unmet\n\
\n\
Options:\n\
\x20 --port P        the port, from 1 to 65535 (must be given)\n\
\x20 --workers W     how many connections are served at once, from 1 to 64 (default: 4)\n\
\x20 --sessions N    how many connections each worker serves before it ends, from 1 to 1000000 (default: 1000000)\n\
\x20 --db FILE       the history is kept in this database of SQLite (default: in memory, until the program ends)\n\
\x20 --journal FILE  the history is kept in this journal (default: in memory, until the program ends)\n\
Either file is made where there is none. Only one of the two may be given.\n";

const MAKE_HELP: &[u8] =
    b"desk make N: makes N offerings (1 to 100) and twenty students for each, meets their requests, and prints one line:\n\
\n\
\x20 offerings N students M met A blocked B spent C\n\
A requests were met, B were blocked, and C would have taken too long a search. No input is read and nothing is kept.\n\
\n\
Options: none.\n";

const AUDIT_HELP: &[u8] =
    b"desk audit [--db FILE | --journal FILE]: opens a history, checks the tree of each blocked reply at its place, and\n\
prints one line:\n\
\n\
\x20 entries E blocked B verified V day D\n\
E requests have acted, B of them were blocked, and V of these by a tree that refutes every choice. D is the day.\n\
\n\
Options:\n\
\x20 --db FILE       the history is in this database of SQLite (default: there is none)\n\
\x20 --journal FILE  the history is in this journal (default: there is none)\n\
Either file is made where there is none. Only one of the two may be given.\n";

const REPORT_HELP: &[u8] =
    b"desk report KIND [ID] [--db FILE | --journal FILE]: prints what the history tells.\n\
\n\
\x20 desk report roll SECTION      who is in a section\n\
\x20 desk report open OFFERING     how many places of an offering are taken and free\n\
\x20 desk report schedule STUDENT  what a student is enrolled in\n\
\x20 desk report waiting           who waits, in the order of their tickets\n\
\x20 desk report unmet             the requests of which no course is held\n\
\n\
Options:\n\
\x20 --db FILE       the history is in this database of SQLite (default: there is none)\n\
\x20 --journal FILE  the history is in this journal (default: there is none)\n\
Either file is made where there is none. Only one of the two may be given.\n";

const IMPORT_HELP: &[u8] =
    b"desk import TABLE --first N [--term DAY] [--db FILE | --journal FILE]: reads a table in CSV from standard input,\n\
and asks for what its rows say as registrar 0, with the numbers N, N+1 and so on. TABLE is offerings, students,\n\
requests or reservations. Each command that the rows make is answered by a line, as in run. The same table again\n\
with the same numbers changes nothing.\n\
\n\
Options:\n\
\x20 --first N       the number of the first command, from 0 to 18446744073709551615 (must be given)\n\
\x20 --term DAY      the day on which week 1 begins, as 2025-09-01; with it a section's weeks may be said by days, as\n\
\x20                 2025-09-01..2025-12-12 (default: none, and weeks are said by their numbers)\n\
\x20 --db FILE       the history is kept in this database of SQLite (default: in memory, until the program ends)\n\
\x20 --journal FILE  the history is kept in this journal (default: in memory, until the program ends)\n\
Either file is made where there is none. Only one of the two may be given.\n";

const EXPORT_HELP: &[u8] =
    b"desk export TABLE [--db FILE | --journal FILE]: prints a table in CSV, as import reads it. TABLE is offerings,\n\
students, requests or reservations.\n\
\n\
Options:\n\
\x20 --db FILE       the history is in this database of SQLite (default: there is none)\n\
\x20 --journal FILE  the history is in this journal (default: there is none)\n\
Either file is made where there is none. Only one of the two may be given.\n";

const PLAN_HELP: &[u8] =
    b"desk plan STUDENT [--budget N] [--db FILE | --journal FILE]: prints the best whole schedule that the student's requests\n\
could have, as if the student held nothing. Nothing is enrolled.\n\
\n\
\x20 rank P met CHOICE          the request at position P, with the choice that the schedule has for it\n\
\x20 rank P unmet VISITS TREE   it can't be had beside those that stand before it: the tree refutes each choice\n\
\x20 rank P spent               the search would visit more decisions than the budget\n\
The requests are taken by position, and each is kept where a schedule has it and all that were kept before it.\n\
\n\
Options:\n\
\x20 --budget N      how many decisions each search may visit, from 1 to 20000 (default: 2000)\n\
\x20 --db FILE       the history is in this database of SQLite (default: there is none)\n\
\x20 --journal FILE  the history is in this journal (default: there is none)\n\
Either file is made where there is none. Only one of the two may be given.\n";

const SURVEY_HELP: &[u8] =
    b"desk survey [--db FILE | --journal FILE]: prints what a search says now of each course request of which the student\n\
holds no course. Nothing is enrolled. The searches run on all processors.\n\
\n\
\x20 student ID rank P open CHOICE           the request at position P can be met: the first choice that is allowed\n\
\x20 student ID rank P blocked VISITS TREE   no choice is allowed: the tree refutes each\n\
\x20 student ID rank P spent                 the search would visit more than 2000 decisions\n\
The students come in order of id. Behind these lines stand sums over those that are blocked:\n\
\n\
\x20 rule K leaves N       N leaves of their trees are of rule K\n\
\x20 section S wanted N    N of them lack a place in section S: it is full, or what is left is reserved for others\n\
Where no request is unmet there is the line `none`.\n\
\n\
Options:\n\
\x20 --db FILE       the history is in this database of SQLite (default: there is none)\n\
\x20 --journal FILE  the history is in this journal (default: there is none)\n\
Either file is made where there is none. Only one of the two may be given.\n";

const VERSION: &[u8] = b"desk 0.1.0\n";

/// The text of a topic.
pub fn help_of(topic: Topic) -> &'static [u8]
    ensures { result.now ≡ help_text topic }
{
    match topic {
        Topic::Desk => DESK_HELP,
        Topic::Command(Verb::Run) => RUN_HELP,
        Topic::Command(Verb::Serve) => SERVE_HELP,
        Topic::Command(Verb::Make) => MAKE_HELP,
        Topic::Command(Verb::Audit) => AUDIT_HELP,
        Topic::Command(Verb::Report) => REPORT_HELP,
        Topic::Command(Verb::Import) => IMPORT_HELP,
        Topic::Command(Verb::Export) => EXPORT_HELP,
        Topic::Command(Verb::Plan) => PLAN_HELP,
        Topic::Command(Verb::Survey) => SURVEY_HELP,
    }
}

/// The text of the version.
pub fn version() -> &'static [u8]
    ensures { result.now ≡ version_text }
{
    VERSION
}
