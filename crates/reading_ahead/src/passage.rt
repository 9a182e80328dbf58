// What the reading thread and the queue share. It is trusted: no clause follows bytes through a
// lock. What each side does to what the lock keeps is proved of `Held`.

use crate::held::{End, Held};
use std::alloc::{AllocError, Global};
use std::sync::{Condvar, Mutex, Wait};

// Where what was read waits: a lock, and what each side sleeps on.
#[derive(Drop)]
pub struct Passage {
    held: Mutex<Held>,
    came: Condvar,
    room: Condvar,
}

impl Passage {
    // Nothing waits yet, and so many bytes may. Errors: want of memory alone.
    pub fn new(alloc: Global, most: usize) -> Result<Passage, AllocError> {
        Ok(Passage {
            held: Mutex::new(Held::new(alloc, most)?),
            came: Condvar::new(),
            room: Condvar::new(),
        })
    }

    // Puts all of these bytes, as room comes. Errors: want of memory alone.
    pub fn put<W: Wait>(&self, rt: &W, piece: &[u8]) -> Result<(), AllocError> {
        let mut done = 0;
        for _ in rt.forever() {
            if done >= piece.len() {
                break;
            }
            let mut held = self
                .room
                .wait_while(rt, self.held.lock(rt), |held| held.is_full());
            done += held.put(&piece[done..])?;
            drop(held);
            self.came.notify_one();
        }
        Ok(())
    }

    // Tells the queue that no more comes.
    pub fn finish<W: Wait>(&self, rt: &W, end: End) {
        let mut held = self.held.lock(rt);
        held.finish(end);
        drop(held);
        self.came.notify_one();
    }

    // Waits for bytes or an end, and fetches what came; answers the end, where no bytes came.
    pub fn fetch<W: Wait>(&self, rt: &W, front: &mut Vec<u8>) -> Option<End> {
        let mut held = self
            .came
            .wait_while(rt, self.held.lock(rt), |held| held.is_idle());
        held.fetch(front);
        let end = held.end();
        drop(held);
        self.room.notify_one();
        if front.is_empty() { end } else { None }
    }
}
