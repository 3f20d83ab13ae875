//! One connection: the room for its bytes, the transcript of what it asked and was answered, and the text of an answer of HTTP.
#![tactic(auto)]

mod body;
mod end;
mod head;
mod law;
mod page;
mod phrases;
mod print;
mod room;

pub use body::await_body;
pub use end::End;
pub use head::{Came, await_head};
pub use law::{a_blank_rest_is_not_cut, a_head_stays};
pub use page::{Kind, Method, Page};
pub use phrases::each_status_has_its_phrase;
pub use print::{no_memory, print_page};
pub use room::Room;
pub use sect_script::write_all;
