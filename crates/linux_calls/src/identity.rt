//! What the calls answer that tell what the program and its user are.

use crate::reply::Reply;

/// The number of the program, its thread and its group of threads.
pub const THREAD: Reply = Reply::Answer(1);

/// The number of the program that started it.
pub const PARENT: Reply = Reply::Answer(0);

/// The number of its user and of its user's group.
pub const USER: Reply = Reply::Answer(1000);
