// The real objects, each over the system.

mod links;
mod objects;
