// The laws of the changes of a queue. The functions do nothing: the contract of each is a law.

ghost use Rattle.std.specs.Prelude.{◌≡◌, List, length, take, drop};
ghost use Rattle.sect_wait.specs.declared.back.QueueBack.{QueueBack};
ghost use Rattle.sect_wait.specs.Queued.{Queued};
ghost use Rattle.sect_wait.specs.Undo.{undone, Since};

/// Whoever changed a queue, one change after the other, knows what taking them back leaves: the queue from which they led,
/// and what was recorded before.
pub fn changes_are_undone()
    ensures none { (q : Queued) (backs : List QueueBack) → Since q backs q backs }
    ensures joined { (q p r : Queued) (backs cs ds : List QueueBack) → Since q backs p cs → Since p cs r ds → Since q backs r ds }
    ensures queue { (q p : Queued) (backs now : List QueueBack) → Since q backs p now → undone p (drop (length backs) now) ≡ q }
    ensures recorded { (q p : Queued) (backs now : List QueueBack) → Since q backs p now → take (length backs) now ≡ backs }
{}
