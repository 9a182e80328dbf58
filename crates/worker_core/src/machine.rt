// The machine: one answer, one step.
ghost use Rattle.std.specs.Prelude.{◌≡◌, ◌≤◌, ℕ, List, Option, Some, None, true, IfOk, Err};
ghost use Rattle.search_limits.specs.declared.expansions.TheConstants.{MOST_EXPANSIONS};
ghost use Rattle.board_core.specs.declared.keys.Key.{Key};
ghost use Rattle.notes.specs.Derivation.{Derivation};
ghost use Rattle.notes.specs.declared.note.NoteEnd.TheVariants.{TooHigh as NoteHigh, NoMemory as NoNoteMemory};
ghost use Rattle.visit_log.specs.declared.words.WorkEnd.TheVariants.{TooHigh, NoMemory};
ghost use Rattle.visit_log.specs.declared.parts.Left.TheVariants.{Solved};
ghost use Rattle.visit_log.specs.declared.parts.Stage.TheVariants.{Polling, Drawing, Entering, Looking, Claiming, Leaving, Posting, Winding};
ghost use Rattle.visit_log.specs.declared.words.Reply.TheVariants.{Poll as Polled, Draw as Drew, Claim as Claimed, Look as Looked, Enter as Entered, Leave as LeftIt, Post as PostedIt};
ghost use Rattle.visit_log.specs.Frame.{task_for, begun};
ghost use Rattle.visit_log.specs.Round.{Solves, IsMade, IsRefusal};
ghost use Rattle.visit_log.specs.Visit.{kept_by};
ghost use Rattle.visit_log.specs.Machine.{start, wind, starve, asks, asks_at, asked, end_of, at_stage, path_of, Fits, FitsAt, GoesOn, LeadsTo, LeadsAt};
ghost use Rattle.visit_log.specs.Laws.{IsCounted};
ghost use Rattle.visit_log.specs.Sound.{IsSound, IsSoundAt, IsListed, IsSoundVisit, IsSoundPlace, IsSoundEntry, IsLookedAt, AreSound};
ghost use Rattle.worker_core.specs.Stack.{HasTop, HasOver};
ghost use Rattle.worker_core.specs.Machine.{IsCopy, IsNotPosting, polls_at, looks_at, winds_at};

use crate::stack::Stack;
use board_core::key;
use notes::{Draw, Kept, Note, NoteEnd, RoomAnswer, Seen, Update};
use path_tags::Path;
use pn_numbers::{INFINITE, Numbers};
use shogi_rules::Problem;
use std::alloc::Global;
use std::marker::Model;
use std::mem;
use visit_frame::Frame;
use visit_log::{Child, Entry, Left, Reply, Request, Stage, WorkEnd, sound_laws};

// What a worker does next, its visits, and what it was given.
#[derive(Drop)]
pub(crate) struct Core {
    stack: Stack,
    stage: Stage,
    visits: u64,
    claims: u64,
}

impl Model for Core {
    ghost use Rattle.std.specs.Coded.{codes};
    ghost use Rattle.notes.specs.contracts.note.Note as facts;
    ghost use Rattle.worker_core.specs.Machine.{CoreView, core_of};

    ghost Value = { CoreView };

    ghost coded = { Prim.hlevel (codes, facts.the_row.coded) };

    ghost view = { λ c. core_of c.stack c.stage c.visits c.claims };
}

impl Core {
    ghost use Rattle.std.specs.Prelude.{◌≡◌, ◌≤◌, ℕ, List, Option, Some, None, true, IfOk, Err};
    ghost use Rattle.board_core.specs.declared.keys.Key.{Key};
    ghost use Rattle.notes.specs.Derivation.{Derivation};
    ghost use Rattle.notes.specs.declared.note.NoteEnd.TheVariants.{TooHigh as NoteHigh, NoMemory as NoNoteMemory};
    ghost use Rattle.visit_log.specs.declared.words.WorkEnd.TheVariants.{TooHigh, NoMemory};
    ghost use Rattle.visit_log.specs.declared.parts.Left.TheVariants.{Solved};
    ghost use Rattle.visit_log.specs.declared.parts.Stage.TheVariants.{Polling, Drawing, Entering, Looking, Claiming, Leaving, Posting, Winding};
    ghost use Rattle.visit_log.specs.declared.words.Reply.TheVariants.{Poll as Polled, Draw as Drew, Claim as Claimed, Look as Looked, Enter as Entered, Leave as LeftIt, Post as PostedIt};
    ghost use Rattle.visit_log.specs.Frame.{task_for, begun};
    ghost use Rattle.visit_log.specs.Round.{Solves, IsMade, IsRefusal};
    ghost use Rattle.visit_log.specs.Machine.{start, wind, starve, asks, asks_at, asked, end_of, at_stage, path_of, Fits, FitsAt, GoesOn, LeadsTo, LeadsAt};
    ghost use Rattle.visit_log.specs.Laws.{IsCounted};
    ghost use Rattle.visit_log.specs.Sound.{IsSound, IsSoundAt, IsListed, IsSoundVisit, IsSoundPlace, IsSoundEntry, IsLookedAt, AreSound};
    ghost use Rattle.worker_core.specs.Stack.{HasTop, HasOver};
    ghost use Rattle.worker_core.specs.Machine.{IsCopy, IsNotPosting, polls_at, looks_at, winds_at};

    /// The machine before it asks anything. Takes no memory.
    pub(crate) fn new(alloc: Global, problem: &Problem, number: u32) -> Core
        ensures task { result.task ≡ task_for problem.now.position number }
        ensures state { result.state ≡ start (task_for problem.now.position number) }
    {
        Core {
            stack: Stack::new(alloc, problem, number),
            stage: Stage::Polling(Entry {
                by: None,
                key: key(&problem.position),
                limits: Numbers {
                    pn: INFINITE,
                    dn: INFINITE,
                },
                numbers: Numbers::ONE,
            }),
            visits: 0,
            claims: 0,
        }
    }

    // Winds up.
    fn wind(&mut self, end: WorkEnd)
        ensures task { self.new.task ≡ self.old.task }
        ensures state { self.new.state ≡ wind self.old.state end }
    {
        self.stack.wind();
        self.stage = Stage::Winding(end);
    }

    // The innermost visit does next what it does.
    #[inline(always)]
    fn go_on(&mut self)
        requires { HasTop (λ f. (path : List Key)
            × IsListed self.old.task path f) self.old.state.frames }
        ensures task { self.new.task ≡ self.old.task }
        ensures on { HasOver (λ f fs. GoesOn self.old.task self.old.state f fs self.new.state)
            self.old.state.frames }
    {
        match self.stack.due() {
            Some(place) => self.look_at(place),
            None => self.settle(),
        }
    }

    // The innermost visit does next what it does, whatever that is.
    #[inline(always)]
    fn settle(&mut self)
        requires { HasTop (λ f. (path : List Key)
            × IsListed self.old.task path f) self.old.state.frames }
        ensures task { self.new.task ≡ self.old.task }
        ensures on { HasOver (λ f fs. GoesOn self.old.task self.old.state f fs self.new.state)
            self.old.state.frames }
    {
        self.stage = self.stack.settle();
    }

    // The child at the place is looked at next.
    #[inline(always)]
    fn look_at(&mut self, place: usize)
        ensures task { self.new.task ≡ self.old.task }
        ensures state { self.new.state
            ≡ at_stage self.old.state (Looking place) self.old.state.frames }
    {
        if let Stage::Looking(now) = &mut self.stage {
            *now = place;
            return;
        }
        self.stage = Stage::Looking(place);
    }

    fn polled(&mut self, entry: Entry, stop: bool)
        ensures task { self.new.task ≡ self.old.task }
        ensures leads { LeadsAt self.old.task self.old.state (Polling entry) (Polled stop)
            self.new.state }
    {
        if stop {
            self.wind(WorkEnd::Stopped);
            return;
        }
        self.stage = Stage::Drawing(entry);
    }

    fn drew(&mut self, alloc: Global, entry: Entry, draw: Draw)
        requires sound { AreSound self.old.task self.old.state.frames
            × IsSoundEntry self.old.task self.old.state.frames entry }
        requires fits { FitsAt self.old.task self.old.state (Drawing entry) (Drew draw) }
        ensures task { self.new.task ≡ self.old.task }
        ensures leads { LeadsAt self.old.task self.old.state (Drawing entry) (Drew draw)
            self.new.state }
    {
        match draw {
            Draw::Done => self.wind(WorkEnd::Posted),
            Draw::Spent => self.wind(WorkEnd::Spent),
            Draw::Go(_) => {
                self.visits += 1;
                match self.stack.begin(alloc, entry) {
                    Ok(()) => self.stage = Stage::Entering,
                    Err(_) => self.wind(WorkEnd::NoMemory),
                }
            }
        }
    }

    fn entered(&mut self, alloc: Global, kept: Kept)
        requires { HasOver (λ f fs. IsSoundPlace self.old.task fs f.place
            × (f ≡ begun f.place)) self.old.state.frames }
        ensures task { self.new.task ≡ self.old.task }
        ensures leads { LeadsAt self.old.task self.old.state Entering (Entered kept) self.new.state }
    {
        // What is listed is sound.
        sound_laws();
        self.stack.keep(kept);
        match self.stack.list(alloc) {
            Ok(()) => self.go_on(),
            Err(_) => self.wind(WorkEnd::NoMemory),
        }
    }

    #[inline(always)]
    fn looked(&mut self, alloc: Global, place: usize, seen: Seen)
        requires sound { HasOver (λ f fs. IsSoundVisit self.old.task f fs
            × IsLookedAt f place) self.old.state.frames }
        requires fits { FitsAt self.old.task self.old.state (Looking place) (Looked seen) }
        ensures task { self.new.task ≡ self.old.task }
        ensures leads { LeadsAt self.old.task self.old.state (Looking place) (Looked seen)
            self.new.state }
    {
        // What was looked at is sound.
        sound_laws();
        match self.stack.look(alloc, place, seen) {
            Ok(()) => self.go_on(),
            Err(_) => self.wind(WorkEnd::NoMemory),
        }
    }

    // The copy of the note that goes out with the Leave, where one was made.
    fn claimed(&mut self, alloc: Global, claim: RoomAnswer) -> Option<Note>
        requires sound { HasOver (λ f fs. IsSoundVisit self.old.task f fs
            × Solves self.old.task f) self.old.state.frames }
        requires few { self.old.state.claims ≤ MOST_EXPANSIONS }
        ensures task { self.new.task ≡ self.old.task }
        ensures leads { LeadsAt self.old.task self.old.state Claiming (Claimed claim) self.new.state }
        ensures copy { IsCopy self.new.state.stage result }
    {
        match claim {
            RoomAnswer::NoRoom => {
                self.wind(WorkEnd::NoRoom);
                None
            }
            RoomAnswer::Room(_) => {
                self.claims += 1;
                match self.made(alloc) {
                    Ok((note, copy)) => {
                        self.stage = Stage::Leaving(Left::Solved(note));
                        Some(copy)
                    }
                    Err(NoteEnd::TooHigh) => {
                        self.wind(WorkEnd::TooHigh);
                        None
                    }
                    Err(NoteEnd::NoMemory) => {
                        self.wind(WorkEnd::NoMemory);
                        None
                    }
                }
            }
        }
    }

    // The note of the innermost position, and a copy.
    fn made(&self, alloc: Global) -> Result<(Note, Note), NoteEnd>
        requires { HasOver (λ f fs. IsSoundVisit self.now.task f fs
            × Solves self.now.task f) self.now.state.frames }
        ensures made { IfOk result
            (λ both. HasTop (λ f. IsMade self.now.task f both.0) self.now.state.frames) }
        ensures copy { IfOk result (λ both. both.1 ≡ both.0) }
        ensures high { result ≡ Err NoteHigh
            → HasTop (λ f. IsRefusal self.now.task f TooHigh) self.now.state.frames }
        ensures low { result ≡ Err NoNoteMemory
            → HasTop (λ f. IsRefusal self.now.task f NoMemory) self.now.state.frames }
    {
        let note = self.stack.make_note(alloc)?;
        let copy = note.share()?;
        Ok((note, copy))
    }

    // The innermost position was left so.
    fn left(&mut self, left: Left)
        requires { IsSoundAt self.old.task (Leaving left) self.old.state.frames }
        ensures task { self.new.task ≡ self.old.task }
        ensures leads { LeadsAt self.old.task self.old.state (Leaving left) LeftIt self.new.state }
    {
        // What comes back is sound.
        sound_laws();
        self.stack.end();
        if self.stack.is_empty() {
            self.post(left);
            return;
        }
        self.stack.come_back(left);
        self.go_on();
    }

    // The problem's position was left so.
    fn post(&mut self, left: Left)
        requires { (note : Derivation) × (left ≡ Solved note) }
        ensures task { self.new.task ≡ self.old.task }
        ensures state { (note : Derivation) → left ≡ Solved note → self.new.state
            ≡ at_stage self.old.state (Posting (Some note)) self.old.state.frames }
    {
        match left {
            Left::Solved(note) => self.stage = Stage::Posting(Some(note)),
            Left::Open(_) => unreachable!(),
        }
    }

    // A position was left.
    fn leave(&mut self)
        requires sound { IsSound self.old.task self.old.state }
        requires fits { Fits self.old.task self.old.state LeftIt }
        ensures task { self.new.task ≡ self.old.task }
        ensures leads { LeadsTo self.old.task self.old.state LeftIt self.new.state }
    {
        if let Stage::Winding(_) = self.stage {
            self.stack.end();
            return;
        }
        if let Stage::Leaving(left) = mem::replace(&mut self.stage, Stage::Entering) {
            self.left(left);
        }
    }

    /// Takes the answer in. The note that comes out is the copy for the Leave, where one was made.
    #[inline(always)]
    pub(crate) fn advance(&mut self, alloc: Global, answer: Reply) -> Option<Note>
        requires sound { IsSound self.old.task self.old.state }
        requires fits { Fits self.old.task self.old.state answer }
        requires counted { IsCounted self.old.state }
        ensures task { self.new.task ≡ self.old.task }
        ensures leads { LeadsTo self.old.task self.old.state answer self.new.state }
        ensures copy { IsCopy self.new.state.stage result }
    {
        match answer {
            Reply::Poll(stop) => {
                if let Stage::Polling(entry) = self.stage {
                    self.polled(entry, stop);
                }
                None
            }
            Reply::Draw(draw) => {
                if let Stage::Drawing(entry) = self.stage {
                    self.drew(alloc, entry, draw);
                }
                None
            }
            Reply::Claim(claim) => self.claimed(alloc, claim),
            Reply::Look(seen) => {
                if let Stage::Looking(place) = self.stage {
                    self.looked(alloc, place, seen);
                }
                None
            }
            Reply::Enter(kept) => {
                self.entered(alloc, kept);
                None
            }
            Reply::Leave => {
                self.leave();
                None
            }
            Reply::Post => {
                self.wind(WorkEnd::Posted);
                None
            }
        }
    }

    /// Winds up for want of memory, unless it has ended.
    pub(crate) fn starve(&mut self)
        ensures task { self.new.task ≡ self.old.task }
        ensures state { self.new.state ≡ starve self.old.state }
    {
        match &self.stage {
            Stage::Winding(_) => {
                if !self.stack.is_empty() {
                    self.stage = Stage::Winding(WorkEnd::NoMemory);
                }
            }
            _ => self.wind(WorkEnd::NoMemory),
        }
    }

    /// What it asks next. The copy goes out with a Leave; a note that is posted is given away.
    #[inline(always)]
    pub(crate) fn ask(&mut self, copy: Option<Note>) -> Request
        requires { IsCopy self.old.state.stage copy }
        ensures request { result ≡ asks self.old.state }
        ensures task { self.new.task ≡ self.old.task }
        ensures state { self.new.state ≡ asked self.old.state }
    {
        if let Stage::Posting(posted) = &mut self.stage {
            return match posted.take() {
                Some(note) => Request::Post(note),
                None => Request::End(WorkEnd::NoMemory),
            };
        }
        ask(&self.stage, &self.stack, copy)
    }

    /// How it ended; none where it hasn't.
    pub(crate) fn end(&self) -> Option<WorkEnd>
        ensures { result ≡ end_of self.now.state }
    {
        match &self.stage {
            Stage::Winding(end) => if self.stack.is_empty() {
                Some(*end)
            } else {
                None
            },
            _ => None,
        }
    }

    /// The children at which it looks next, where it begins with the first of them.
    pub(crate) fn first_looks(&self) -> Option<&[Child]> {
        match self.stage {
            Stage::Looking(0) => self.stack.children(),
            _ => None,
        }
    }

    /// Whether it polls next.
    pub(crate) fn is_polling(&self) -> bool
        ensures { result ≡ polls_at self.now.state.stage }
    {
        matches!(self.stage, Stage::Polling(_))
    }

    /// Whether it looks next.
    pub(crate) fn is_looking(&self) -> bool
        ensures { result ≡ looks_at self.now.state.stage }
    {
        matches!(self.stage, Stage::Looking(_))
    }

    /// Whether it winds up.
    pub(crate) fn is_winding(&self) -> bool
        ensures { result ≡ winds_at self.now.state.stage }
    {
        matches!(self.stage, Stage::Winding(_))
    }

    /// The path.
    pub(crate) fn path(&self) -> &Path
        ensures { result.now ≡ path_of self.now.task self.now.state.frames }
    {
        self.stack.path()
    }

    /// The problem.
    pub(crate) fn problem(&self) -> &Problem
        ensures { result.now.position ≡ self.now.task.problem }
    {
        self.stack.problem()
    }

    /// How many visits it was given.
    pub(crate) fn visits(&self) -> u64
        ensures { result ≡ self.now.state.visits }
    {
        self.visits
    }

    /// For how many notes it was given room.
    pub(crate) fn claims(&self) -> u64
        ensures { result ≡ self.now.state.claims }
    {
        self.claims
    }
}

// What is asked at a stage, but for a note that is posted.
#[inline(always)]
fn ask(stage: &Stage, stack: &Stack, copy: Option<Note>) -> Request
    requires other { IsNotPosting stage.now }
    requires copy { IsCopy stage.now copy }
    ensures { result ≡ asks_at stage.now stack.now.frames }
{
    match stage {
        Stage::Polling(_) => Request::Poll,
        Stage::Drawing(_) => Request::Draw,
        Stage::Claiming => Request::Claim,
        Stage::Posting(_) => Request::End(WorkEnd::NoMemory),
        Stage::Entering => ask_enter(stack),
        Stage::Looking(place) => ask_look(stack, *place),
        Stage::Leaving(left) => ask_leave(stack, update(left, copy), WorkEnd::NoMemory),
        Stage::Winding(end) => ask_leave(stack, Update::Nothing, *end),
    }
}

fn ask_enter(stack: &Stack) -> Request
    ensures { result ≡ Rattle.visit_log.specs.Machine.ask_enter stack.now.frames }
{
    match stack.top() {
        Some(frame) => Request::Enter {
            key: frame.key(),
            numbers: frame.numbers(),
        },
        None => Request::End(WorkEnd::NoMemory),
    }
}

fn ask_look(stack: &Stack, place: usize) -> Request
    ensures { result ≡ Rattle.visit_log.specs.Machine.ask_look_in stack.now.frames place }
{
    let Some(frame) = stack.top() else {
        return Request::End(WorkEnd::NoMemory);
    };
    match frame.child_key(place) {
        Some(key) => Request::Look(key),
        None => Request::End(WorkEnd::NoMemory),
    }
}

fn ask_leave(stack: &Stack, update: Update, end: WorkEnd) -> Request
    ensures { result ≡ Rattle.visit_log.specs.Machine.ask_leave stack.now.frames update end }
{
    match stack.top() {
        Some(frame) => Request::Leave {
            kept: slot_of(frame),
            key: frame.key(),
            update,
        },
        None => Request::End(end),
    }
}

fn slot_of(frame: &Frame) -> Kept
    ensures { result ≡ kept_by frame.now.kept }
{
    match frame.kept() {
        Some(kept) => kept,
        None => Kept::Unkept,
    }
}

// What leaving a position tells; a note goes out as its copy.
fn update(left: &Left, copy: Option<Note>) -> Update
    requires { IsCopy (Leaving left.now) copy }
    ensures { result ≡ Rattle.visit_log.specs.Machine.update_by left.now }
{
    match left {
        Left::Open(numbers) => Update::Numbers(*numbers),
        Left::Solved(_) => match copy {
            Some(note) => Update::Note(note),
            None => Update::Nothing,
        },
    }
}
