//! Units read in parallel, each by the worker that draws its number.
//!
//! A [`UnitJob`] turns a number into a result. Its relation `gives` says which results are right
//! for a number. [`run_all`] runs a job for each number below a count, by some workers, and returns
//! the list of results. It has as many members as the count says, and member k is right for the
//! number k. The list does not say which worker drew which number. A [`Crew`] has the workers,
//! their threads and their memory in one value; it can also make two calls at the same time, and
//! sort a list.
//!
//! The workers share one word, and their only step on it is an addition of 1, which draws the
//! number of the next unit. No lock is taken and no call waits. [`open_tickets`] makes the word
//! with a first [`Hand`], which may draw. `split` makes the other hands, one for each worker, and
//! `join` joins them again. A hand that stands for all workers and has no right left has drawn each
//! number below the count exactly once. This is the contract of `close`.
//!
//! If consecutive members of a list are one job, [`share_of`] gives these members (a share), and
//! [`share_bounds`] says where they begin and end.
//!
//! If memory runs out, a call returns [`sym_edges::OutOfMemory`]; it fails for no other reason. It
//! is not promised that threads run at the same time, that the [`Gate`] is called, or which worker
//! draws which number.
//!
//! # The one shared word
//!
//! A draw that finds the count or more in the word gives no number. The result of a unit is a
//! function of the file and the unit's number, and reading it shares nothing that changes. Each
//! worker has a [`Hand`], which takes no bytes. What the hand knows exists only in the proofs: the
//! numbers that it drew, its rights (how many draws it may still make that find no number), its
//! share (how many workers it stands for), and the count and the number of workers with which the
//! word was made. The rule of the word (`specs/Drawing.antt`) is a fact about the word and what all
//! hands know, and each step keeps it. These always hold:
//!
//! - numbers: each number below both the word and the count is in one hand's list, once; no list has another number
//! - rights: the rights of all hands, and the word's excess over the count, add up to the number of workers
//! - shares: the shares of all hands add up to the number of workers
//! - each hand: it has no more rights than its share; with share 0 it has drawn nothing
//! - the lot: a hand with a share knows the count and the number of workers
//!
//! The steps: making the word sets it to 0; its hand has no number, and its rights and its share are the number of workers. `split` reads the word:
//! the new hand has no number, one right and share 1, and the old hand loses this right and this share. `draw` adds 1: a number below the count is
//! added to the list, otherwise one right is spent. `join` reads the word; after that the hand has the numbers, rights and
//! shares of both hands, and the other hand is gone.
//!
//! A draw needs a right, so the word never exceeds the sum of the count and the workers. A hand
//! with the whole share leaves no share to another, so no other has a right or a number. If it has
//! no right itself, the word has passed the count, and the hand's list has each number below the
//! count once. This is the contract of `close`.
//!
//! Read the module `job` first, then `lot`, `view` and `rule` with `specs/Drawing.antt`, then
//! `tickets`, `worker`, `results`, `runner` and `crew`. `shares` may be read alone.
#![tactic(auto)]

mod crew;
mod job;
pub mod laws;
mod lot;
mod results;
mod rule;
mod runner;
mod shares;
mod tickets;
mod view;
mod worker;

pub use crew::Crew;
pub use job::{Gate, NoGate, UnitJob};
pub use runner::run_all;
pub use shares::{share_bounds, share_of};
pub use tickets::{Hand, Tickets, open_tickets};
