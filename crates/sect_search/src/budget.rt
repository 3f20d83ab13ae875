// The budget of a search that nobody named one for.

ghost use Rattle.std.specs.Prelude.{◌≡◌};

use sect_base::Budget;

/// The most decisions that a search tries for who waits, for a line of a batch and for a line of the survey: 2,000.
pub fn usual_budget() -> Budget
    ensures { result ≡ 2000 }
{
    match Budget::new(2_000) {
        Some(budget) => budget,
        None => unreachable!(),
    }
}
