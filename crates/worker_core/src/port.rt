// What a worker works over.
ghost use Rattle.std.specs.Prelude.{◌≡◌, ◌<◌, ◌≤◌, ℕ, true, IfOk, Some};
ghost use Rattle.search_limits.specs.declared.expansions.TheConstants.{MOST_EXPANSIONS};

use board_core::Key;
use notes::{Draw, Kept, Note, RoomAnswer, Seen, Update};
use path_tags::Path;
use pn_numbers::Numbers;
use std::alloc::AllocError;
use visit_log::Child;

/// The table of positions and the desk of a search, as one worker has them: alone, beside others
/// under some schedule, or on a thread.
///
/// What it tells of itself is its book: the problem; how many visits it gave, at most a billion,
/// and for how many notes it gave room; whether it goes on; which word each slot of a key's row
/// has, and how often the slot of a word is entered and not left. A call that answers a request
/// changes the book as the two say (`IsBooked`), and is one step of the port (`turn`).
pub trait Port {
    ghost use Rattle.std.specs.Prelude.{◌≡◌, ◌<◌, ◌≤◌, ℕ, true, IfOk, Some, Option, List};
    ghost use Rattle.board_core.specs.declared.keys.Key.{Key};
    ghost use Rattle.pn_numbers.specs.Numbers.{IsOpen};
    ghost use Rattle.visit_log.specs.declared.words.Request.{Request};
    ghost use Rattle.visit_log.specs.declared.words.Request.TheVariants.{Poll, Draw as Draws, Claim as Claims, Look, Enter, Leave, Post};
    ghost use Rattle.visit_log.specs.declared.words.Reply.{Reply};
    ghost use Rattle.visit_log.specs.declared.words.Reply.TheVariants.{Poll as Polled, Draw as Drew, Claim as Claimed, Enter as Entered, Leave as LeftIt, Post as PostedIt};
    ghost use Rattle.visit_log.specs.Frame.{task_for};
    ghost use Rattle.visit_log.specs.Round.{MayShow};
    ghost use Rattle.visit_log.specs.Sound.{IsSoundUpdate, IsAnswer};
    ghost use Rattle.visit_log.specs.Counts.{slot_once};
    ghost use Rattle.worker_core.specs.Port.{Book, IsBooked, shown};

    /// What it tells of itself.
    ghost book: { Self → Book };

    /// From one state to the next, by a request of a worker on this path (the keys of the
    /// attacker's positions that it is visiting) and its answer (none where a look was refused
    /// memory).
    ghost turn: { Self → List Key → Request → Option Reply → Self → Type 0 };

    /// Whether the worker is to stop.
    fn poll(&mut self) -> bool
        ensures turn { (path : List Key) → turn self.old path Poll (Some (Polled result)) self.new }
        ensures book { IsBooked (Poll, Some (Polled result)) (book self.old) (book self.new) };

    /// The next visit. It isn't asked once nothing more is handed out.
    fn draw(&mut self) -> Draw
        requires { (book self.old).going ≡ true }
        ensures turn { (path : List Key) → turn self.old path Draws (Some (Drew result)) self.new }
        ensures book { IsBooked (Draws, Some (Drew result)) (book self.old) (book self.new) };

    /// Room for a note. It isn't asked once nothing more is handed out.
    fn claim(&mut self) -> RoomAnswer
        requires { (book self.old).going ≡ true }
        ensures turn { (path : List Key)
            → turn self.old path Claims (Some (Claimed result)) self.new }
        ensures book { IsBooked (Claims, Some (Claimed result)) (book self.old) (book self.new) };

    /// What is known of the position of this key, by a worker on this path: a note only about it,
    /// for the problem's attacker, that holds on the path; or one of another position, which may be
    /// carried to it; else numbers from 1 to the cap. Errors: want of memory alone.
    fn look(&mut self, key: &Key, path: &Path) -> Result<Seen, AllocError>
        ensures turn { turn self.old path.now (Look key.now) (shown result) self.new }
        ensures book { IsBooked (Look key.now, shown result) (book self.old) (book self.new) }
        ensures may { IfOk result (MayShow (book self.old).problem.side key.now path.now) };

    /// Enters the position of this key, with these numbers, from 1 to the cap, where it is new.
    /// Fewer than a billion slots are held.
    fn enter(&mut self, key: &Key, numbers: Numbers) -> Kept
        requires in_range { IsOpen numbers }
        requires few { (book self.old).size < MOST_EXPANSIONS }
        ensures turn { (path : List Key)
            → turn self.old path (Enter key.now numbers) (Some (Entered result)) self.new }
        ensures book { IsBooked (Enter key.now numbers, Some (Entered result)) (book self.old)
            (book self.new) };

    /// Leaves the position of this key, which was entered so, with an update: numbers from 1 to the
    /// cap, or a note about it for the problem's attacker. A slot that is left is held.
    fn leave(&mut self, kept: Kept, key: &Key, update: Update)
        requires sound { IsSoundUpdate (book self.old).problem.side key.now update }
        requires held { (word : ℕ)
            → slot_once (book self.old).words kept key.now word ≤ (book self.old).held word }
        ensures turn { (path : List Key)
            → turn self.old path (Leave kept key.now update) (Some LeftIt) self.new }
        ensures book { IsBooked (Leave kept key.now update, Some LeftIt) (book self.old)
            (book self.new) };

    /// Reads ahead what looks at these children will read, where that saves time: so memory is
    /// waited for once, and not for each child. What it comes to means nothing; it is told so that
    /// it is read at all. Nothing changes.
    fn read_ahead(&self, children: &[Child]) -> u64;

    /// Posts a note that answers the problem.
    fn post(&mut self, note: Note)
        requires { IsAnswer (task_for (book self.old).problem 1) note }
        ensures turn { (path : List Key) → turn self.old path (Post note) (Some PostedIt) self.new }
        ensures book { IsBooked (Post note, Some PostedIt) (book self.old) (book self.new) };
}
