// The morning round: the queue of tables that a host rolls, some at each call.
#![tactic(auto)]

ghost use Rattle.std.specs.Prelude.{Ok, MatchOption, ◌≡◌, [], ◌∷◌, ◌++◌, ◌+◌, ◌-◌, ◌≤◌, ◌<◌, take, drop};
ghost use Rattle.rounds.specs.Rounds.{queued, queue_place_right, queue_right, places200, queue_of, index_of, handled, handled_of, changed_of, handle_call, join_call, leave_call};

use questions::Refusal;

// Numbers of tables, the first to be handled first; the first `count` places are used.
#[repr(C)]
#[derive(Clone, Copy)]
pub struct Queue {
    pub tables: [u16; 200],
    pub count: u16,
}

// The numbers that an accepted call of the round took, in the queue's order, and the queue after it.
#[derive(Clone, Copy)]
pub struct RoundCalled {
    pub taken: Queue,
    pub queue: Queue,
}

// A call of the round, for C: its refusal, 0 where it is accepted, the numbers that it took, in their order, and the queue.
#[repr(C)]
#[derive(Clone, Copy)]
pub struct Handled {
    pub refusal: u8,
    pub taken: Queue,
    pub queue: Queue,
}

// A joining or leaving, for C: its refusal, 0 where it is accepted, and the queue.
#[repr(C)]
#[derive(Clone, Copy)]
pub struct Changed {
    pub refusal: u8,
    pub queue: Queue,
}

impl Handled {
    // The answer of a call of the round on a queue: refused, it takes none and returns the queue as it came.
    pub fn for_c(queue: Queue, answer: Result<RoundCalled, Refusal>) -> Handled
        ensures { result ≡ handled_of queue answer }
    {
        match answer {
            Ok(round) => Handled {
                refusal: 0,
                taken: round.taken,
                queue: round.queue,
            },
            Err(refusal) => Handled {
                refusal: refusal.number(),
                taken: Queue::empty(),
                queue,
            },
        }
    }
}

impl Changed {
    // The answer of a joining or leaving on a queue: refused, it returns the queue as it came.
    pub fn for_c(queue: Queue, answer: Result<Queue, Refusal>) -> Changed
        ensures { result ≡ changed_of queue answer }
    {
        match answer {
            Ok(changed) => Changed {
                refusal: 0,
                queue: changed,
            },
            Err(refusal) => Changed {
                refusal: refusal.number(),
                queue,
            },
        }
    }
}

// Whether the number at place i is from 0 to 199, and no place before it has it.
fn is_place_right(tables: [u16; 200], i: usize) -> bool
    requires { i < 200 }
    ensures { result ≡ queue_place_right tables i }
{
    let number = tables[i];
    if 199 < number {
        return false;
    }
    !tables[..i].contains(&number)
}

// Question 10: whether the queue holds at most 200 numbers from 0 to 199, each at most once. Places that are not used are not looked at.
fn is_right(q: Queue) -> bool
    ensures { result ≡ queue_right q }
{
    let n = q.count as usize;
    if 200 < n {
        return false;
    }
    let tables = q.tables;
    (0..n).all(|i| is_place_right(tables, i))
}

// How many of the first n numbers stand before a table's, where it is among them.
fn index_of(tables: [u16; 200], n: usize, table: u16) -> Option<usize>
    requires { n ≤ 200 }
    ensures { MatchOption result (n ≤ index_of (take n tables) table) (λ i. (i < n) × (i ≡ index_of (take n tables) table)) }
{
    tables[..n].iter().position(|number| *number == table)
}

// The numbers at places first to end − 1, put after the first n of other places, which are zero from n on.
fn put_after(
    other: [u16; 200],
    n: usize,
    tables: [u16; 200],
    first: usize,
    end: usize,
) -> [u16; 200]
    requires { (first ≤ end) × (end ≤ 200) × (n + (end - first) ≤ 200) × (other ≡ places200 (take n other)) }
    ensures { result ≡ places200 (take n other ++ drop first (take end tables)) }
{
    let mut out = other;
    out[n..n + (end - first)].copy_from_slice(&tables[first..end]);
    out
}

// Places of which none is used.
fn no_tables() -> [u16; 200]
    ensures { result ≡ places200 [] }
{
    [0; 200]
}

// An accepted call of the round: the first b tables, or all if fewer, are taken and put at the end.
fn first_to_end(q: Queue, b: u16) -> RoundCalled
    requires { q.count ≤ 200 }
    ensures { handled_of q (Ok result) ≡ handled (queued q) b }
{
    let tables = q.tables;
    let n = q.count as usize;
    let few = b.min(q.count);
    let k = few as usize;
    let none = no_tables();
    let first = put_after(none, 0, tables, 0, k);
    let rest = put_after(none, 0, tables, k, n);
    let all = put_after(rest, n - k, tables, 0, k);
    let taken = Queue {
        tables: first,
        count: few,
    };
    let queue = Queue {
        tables: all,
        count: q.count,
    };
    RoundCalled { taken, queue }
}

// An accepted joining: the table at the end.
fn with_last(q: Queue, table: u16) -> Queue
    requires { q.count < 200 }
    ensures { result ≡ queue_of (queued q ++ (table ∷ [])) }
{
    let tables = q.tables;
    let n = q.count as usize;
    let none = no_tables();
    let mut all = put_after(none, 0, tables, 0, n);
    all[n] = table;
    Queue {
        tables: all,
        count: q.count + 1,
    }
}

// An accepted leaving: the queue without the number that so many stand before, the rest keeping their order.
fn without_index(q: Queue, index: usize) -> Queue
    requires { (index < q.count) × (q.count ≤ 200) }
    ensures { result ≡ queue_of (take index (queued q) ++ drop (index + 1) (queued q)) }
{
    let tables = q.tables;
    let n = q.count as usize;
    let none = no_tables();
    let before = put_after(none, 0, tables, 0, index);
    let all = put_after(before, index, tables, index + 1, n);
    Queue {
        tables: all,
        count: q.count - 1,
    }
}

impl Queue {
    // A queue with no table.
    pub fn empty() -> Queue
        ensures { result ≡ queue_of [] }
    {
        let tables = no_tables();
        Queue { tables, count: 0 }
    }

    // A call of the round: takes the first b tables, or all if fewer, and puts them at the end.
    pub fn handle(self, b: u16) -> Result<RoundCalled, Refusal>
        ensures { handled_of self result ≡ handle_call self b }
    {
        if !is_right(self) {
            return Err(Refusal::Unsound);
        }
        if b < 1 {
            return Err(Refusal::QueueNumberOutOfRange);
        }
        if 200 < b {
            return Err(Refusal::QueueNumberOutOfRange);
        }
        Ok(first_to_end(self, b))
    }

    // Puts a table at the end.
    pub fn join(self, table: u16) -> Result<Queue, Refusal>
        ensures { changed_of self result ≡ join_call self table }
    {
        if !is_right(self) {
            return Err(Refusal::Unsound);
        }
        if 199 < table {
            return Err(Refusal::QueueNumberOutOfRange);
        }
        let tables = self.tables;
        let n = self.count as usize;
        if tables[..n].contains(&table) {
            return Err(Refusal::WronglyQueued);
        }
        Ok(with_last(self, table))
    }

    // Takes a table out, wherever it stands.
    pub fn leave(self, table: u16) -> Result<Queue, Refusal>
        ensures { changed_of self result ≡ leave_call self table }
    {
        if !is_right(self) {
            return Err(Refusal::Unsound);
        }
        if 199 < table {
            return Err(Refusal::QueueNumberOutOfRange);
        }
        let tables = self.tables;
        let n = self.count as usize;
        match index_of(tables, n, table) {
            None => Err(Refusal::WronglyQueued),
            Some(index) => Ok(without_index(self, index)),
        }
    }
}
