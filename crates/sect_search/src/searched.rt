// What a walk finds, and what it keeps on its way.

ghost use Rattle.std.specs.Prelude.{◌≡◌, ◌++◌, [], ◌∷◌, length, IfOk};

use sect_base::{Block, Budget, Choice, Items, Memory};
use std::alloc::Global;
use std::marker::Model;

/// What a search below a node comes to: a path is complete, or all that was looked at is refuted, or the budget was spent.
#[derive(Clone, Copy)]
pub enum Searched {
    Found,
    Refuted,
    Spent,
}

/// The choices of a complete path, of which the last lies in the value itself: so those of one want take no memory. Contracts see
/// the list.
#[derive(Drop)]
pub struct Complete {
    before: Items<Choice>,
    last: Option<Choice>,
}

impl Model for Complete {
    ghost use Rattle.std.specs.Prelude.{◌≡◌, ◌++◌, [], List, Option, None};
    ghost use Rattle.std.specs.Option.{option_to_list};
    ghost use Rattle.sect_base.specs.declared.choice.Choice.{Choice};

    ghost Value = { List Choice };

    ghost view = { λ c. c.before ++ option_to_list c.last };

    ghost invariant = { λ c. c.last ≡ None → c.before ≡ [] };
}

impl Complete {
    /// No choices. It takes no memory.
    #[inline(always)]
    fn none(alloc: Global) -> Complete
        ensures { result ≡ [] }
    {
        Complete {
            before: Items::from_vec(Vec::new(alloc)),
            last: None,
        }
    }

    /// These choices, and one more.
    #[inline(always)]
    pub fn new(before: Items<Choice>, last: Choice) -> Complete
        ensures { result ≡ before ++ last ∷ [] }
    {
        Complete {
            before,
            last: Some(last),
        }
    }

    /// The choices, as a list.
    pub fn into_items(self) -> Result<Items<Choice>, Memory>
        ensures { IfOk result (λ choices. choices ≡ self) }
    {
        let Complete { before, last } = self;
        match last {
            Some(choice) => {
                let mut choices = before.into_vec();
                choices.push(choice)?;
                Ok(Items::from_vec(choices))
            }
            None => Ok(before),
        }
    }

    /// The choice, where it is one alone. It takes no memory.
    #[inline(always)]
    pub fn into_one(self) -> Choice
        requires { length self ≡ 1 }
        ensures { self ≡ result ∷ [] }
    {
        let Complete { before: _, last } = self;
        match last {
            Some(choice) => choice,
            None => unreachable!(),
        }
    }
}

/// What a walk keeps: what is left of the budget, the trees of the options that are refuted so far, and the choices of the
/// first complete path, once it is found.
#[derive(Drop)]
pub struct Walk {
    pub left: u32,
    pub trees: Vec<Block>,
    pub choices: Complete,
}

impl Walk {
    /// Nothing was looked at. It takes no memory.
    #[inline(always)]
    pub fn new(alloc: Global, budget: Budget) -> Walk
        ensures left { result.left ≡ budget }
        ensures trees { result.trees.items ≡ [] }
    {
        Walk {
            left: budget.get(),
            trees: Vec::new(alloc),
            choices: Complete::none(alloc),
        }
    }
}
