// A whole command over the keeper of a stand.

use crate::runs::{Setting, run_over};
use crate::stand::Stand;
use crate::told::put_ended;
use sect_base::Memory;
use std::alloc::AllocGlobal;
use std::sync::Wait;
use std::thread::Threads;

/// Runs words over the keeper of a stand, and puts what came of it behind the text.
pub fn put_once<R: AllocGlobal + Threads + Wait + Sync>(
    rt: &R,
    setting: &Setting<'_>,
    input: &[u8],
    stand: &mut Stand,
    into: &mut String,
) -> Result<(), Memory> {
    run_over(rt, setting, input, stand)?;
    put_ended(rt.alloc(), stand, into)
}
