// The queue of resolution over positions in the set, until none waits.
ghost use Rattle.std.specs.Prelude.{◌≡◌, ◌&&◌, not, eqb};
ghost use Rattle.resolution.specs.Resolver.{is_open, is_done};

use crate::modules::{end_of, find_split};
use crate::sources::Sources;
use crate::wanted::{kind_for, want_record};
use records::bytes::head;
use records::error::{Input, ModuleError};
use records::record::Cursor;
use records::set::entry;

// What ends the queue.
#[derive(Clone, Copy)]
pub enum Halt {
    // Nothing: it goes on.
    Open,
    // An absent name was queued: the modules that wait come first.
    Stop(ModuleError),
    // A refusal: nothing comes first.
    Refused(ModuleError),
}

// What becomes of a name that a record queues.
#[derive(Clone, Copy)]
pub enum Wanted {
    Pass,
    // The module at this position is queued.
    Add(usize),
    Stop(ModuleError),
    Refuse(ModuleError),
}

// How far the queue is: the positions before head are resolved, in order, and those from there to tail wait.
#[derive(Clone, Copy)]
pub struct Queue {
    pub head: usize,
    pub tail: usize,
    pub halt: Halt,
}

// How many modules the set has, which of them are permitted and not hidden, whether a round is being made, and how many modules
// were resolved before the rounds. `statics`: whether the request has an ST; `limited`: whether it has an LM; `known`: whether
// tables of names tell which absent names are permitted, and in a round which were met before the rounds.
#[derive(Clone, Copy)]
pub struct Phase {
    pub count: usize,
    pub permitted: [u64; 8],
    pub in_round: bool,
    pub before: usize,
    pub statics: bool,
    pub limited: bool,
    pub known: bool,
}

// Nothing ends the queue.
#[tactic(auto, using(crate::proofs::resolver::Turns::done_laws))]
pub fn is_done(q: Queue) -> bool
    ensures { result ≡ is_done q.halt }
{
    matches!(q.halt, Halt::Open)
}

// There is no refusal, and a module waits.
#[tactic(auto, using(crate::proofs::resolver::Turns::on_laws))]
fn goes_on(q: Queue) -> bool
    ensures { result ≡ (is_open q.halt && not (eqb q.head q.tail)) }
{
    !matches!(q.halt, Halt::Refused(_)) && q.head != q.tail
}

// The queue with its array: of its first half the entries before the tail are positions of modules, in order; entry 512 + i is 1 where
// position i is one of them, else 0.
#[derive(Drop)]
pub struct Resolver {
    pub order: [usize; 1024],
    pub queue: Queue,
}

impl Resolver {
    ghost use Rattle.std.specs.Prelude.{◌≡◌, false, ◌&&◌, not, suc, ◌-◌, ◌≤◌, ◌<◌, eqb, length, get_or, take, drop, replicate};
    ghost use Rattle.resolution.specs.declared.resolver.Halt.TheVariants as Halt;
    ghost use Rattle.records.specs.Record.{records};
    ghost use Rattle.resolution.specs.Resolver.{is_one_of, Within, line_at, queued, queued_at, queue_in, advanced_at, handle_at, is_open, run_at, Ready, Moved};
    ghost use Rattle.resolution.specs.Sources.{inputs_in};
    ghost use Rattle.resolution.specs.Runs.{Running, Ran};

    // Nothing is resolved, and none waits.
    pub fn new() -> Resolver
        ensures { result ≡ record { order = replicate 1024 0; queue = record { head = 0; tail = 0; halt = Halt.Open } } }
    {
        Resolver {
            order: [0usize; 1024],
            queue: Queue {
                head: 0,
                tail: 0,
                halt: Halt::Open,
            },
        }
    }

    // Whether position i is in the queue: its mark says so.
    #[tactic(auto, using(crate::proofs::resolver::Ends::queued_laws))]
    pub fn is_queued(&self, count: usize, i: usize) -> bool
        requires ready { Ready count self.now.order self.now.queue }
        requires i_lt_count { i < count }
        ensures { result ≡ is_one_of i (take self.now.queue.tail self.now.order) }
    {
        self.order[512 + i] == 1
    }

    // Position i comes to the end and is marked, unless it is there.
    #[tactic(auto, using(crate::proofs::resolver::Ends::push_laws))]
    fn push(&mut self, count: usize, i: usize)
        requires ready { Ready count self.old.order self.old.queue }
        requires i_lt_count { i < count }
        ensures { Moved count self.new.order self.new.queue (queued_at i (line_at self.old.order self.old.queue)) }
    {
        if self.is_queued(count, i) {
            return;
        }
        self.order[self.queue.tail] = i;
        self.order[512 + i] = 1;
        self.queue.tail += 1;
    }

    // A name is queued, as is wanted; after a halt nothing is.
    #[tactic(auto, using(crate::proofs::resolver::Ends::enqueue_laws))]
    pub fn enqueue(&mut self, count: usize, wanted: Wanted)
        requires ready { Ready count self.old.order self.old.queue }
        requires within { Within count wanted }
        ensures { Moved count self.new.order self.new.queue (queued wanted (line_at self.old.order self.old.queue)) }
    {
        if !is_done(self.queue) {
            return;
        }
        match wanted {
            Wanted::Pass => {}
            Wanted::Add(i) => self.push(count, i),
            Wanted::Stop(e) => {
                self.queue.halt = Halt::Stop(e);
            }
            Wanted::Refuse(e) => {
                self.queue.halt = Halt::Refused(e);
            }
        }
    }

    // The names that the records of source from `at` on queue, until something ends the queue.
    #[tactic(auto, using(crate::proofs::resolver::Records::records_laws))]
    pub fn queue_records(&mut self, sources: &Sources, input: Input, source: &[u8], at: usize)
        requires ready { Ready sources.now.phase.count self.old.order self.old.queue }
        requires source_len_bound { length source.now ≤ 65535 }
        ensures { Moved sources.now.phase.count self.new.order self.new.queue (queue_in (inputs_in sources.now) input at (records (drop at source.now)) (line_at self.old.order self.old.queue)) }
    {
        let kind = kind_for(input);
        let mut c = Cursor { at };
        while let Some(span) = c.next(source, kind) {
            if !is_done(self.queue) {
                return;
            }
            let wanted = want_record(sources, input, span.of(source), span.start);
            self.enqueue(sources.phase.count, wanted);
            c = span.next;
        }
    }

    // The module at the head is resolved, and its requirements are queued.
    #[tactic(auto, using(crate::proofs::resolver::Turns::advance_laws))]
    fn advance(&mut self, sources: &Sources)
        requires set_len_bound { length sources.now.set.now ≤ 65535 }
        requires ready { Ready sources.now.phase.count self.old.order self.old.queue }
        requires head_lt_tail { self.old.queue.head < self.old.queue.tail }
        ensures { Moved sources.now.phase.count self.new.order self.new.queue (advanced_at (inputs_in sources.now) (line_at self.old.order self.old.queue) (get_or self.old.order self.old.queue.head 0)) }
    {
        let p = self.order[self.queue.head];
        let source = head(sources.set, end_of(sources.starts, p));
        self.queue.head += 1;
        self.queue_records(sources, Input::Set, source, entry(sources.starts, p));
    }

    // The module at the head: its packages are tested first.
    #[tactic(auto, using(crate::proofs::resolver::Turns::handle_laws))]
    fn handle(&mut self, sources: &Sources, packages: &mut [u64])
        requires running { Running sources.now.phase.count sources.now.set.now sources.now.starts.now self.old.order packages.old self.old.queue }
        requires head_lt_tail { self.old.queue.head < self.old.queue.tail }
        ensures { Ran sources.now.phase.count sources.now.set.now sources.now.starts.now self.new.order packages.new self.new.queue (handle_at (inputs_in sources.now) (line_at self.old.order self.old.queue)) }
    {
        let at = self.queue.head;
        let p = self.order[at];
        match find_split(sources, &self.order[..at], packages, p) {
            Halt::Open => self.advance(sources),
            Halt::Stop(e) => {
                self.queue.halt = Halt::Refused(e);
            }
            Halt::Refused(e) => {
                self.queue.halt = Halt::Refused(e);
            }
        }
    }

    // The modules that wait are handled, until none is left or there is a refusal.
    #[tactic(auto, using(crate::proofs::resolver::Runs::run_laws))]
    pub fn run(&mut self, sources: &Sources, packages: &mut [u64])
        requires running { Running sources.now.phase.count sources.now.set.now sources.now.starts.now self.old.order packages.old self.old.queue }
        ensures ran { Ran sources.now.phase.count sources.now.set.now sources.now.starts.now self.new.order packages.new self.new.queue (run_at (inputs_in sources.now) (suc sources.now.phase.count - self.old.queue.head) (line_at self.old.order self.old.queue)) }
        ensures tail_value { (is_open self.new.queue.halt && not (eqb self.new.queue.head self.new.queue.tail)) ≡ false }
    {
        while goes_on(self.queue) {
            self.handle(sources, packages);
        }
    }
}
