// The calls of a script on the queue, and the lines that they print.
ghost use Rattle.std.specs.Prelude.{◌≡◌, true, ◌≤◌};
ghost use Rattle.rounds.specs.Rounds.{queue_right};

use crate::reading::Record;
use compare_text::{end_line, put_number, start_line};
use rounds::{Changed, Handled, Queue};

// The letters of the calls: an empty queue, a joining, a leaving, a call of the round, one whose tables are rolled;
// a place and the count of a queue that no call made.
const EMPTY: u8 = b'E';

const JOIN: u8 = b'J';

const LEAVE: u8 = b'L';

const HANDLE: u8 = b'H';

const MORNING: u8 = b'M';

const PLACE: u8 = b'P';

const COUNT: u8 = b'N';

// The queue after a record of the script, and the tables to be rolled.
#[derive(Clone, Copy)]
pub struct QueueCalled {
    pub queue: Queue,
    pub taken: Queue,
}

// How many of the 200 places a count says are used.
fn used(count: u16) -> usize
    ensures { result ≤ 200 }
{
    usize::from(count.min(200))
}

fn put_first(rt: HostRuntime, tables: [u16; 200], n: usize)
    requires { n ≤ 200 }
{
    for number in &tables[..n] {
        put_number(rt, *number);
    }
}

// The sum of the numbers from place n on.
fn sum_from(tables: [u16; 200], n: usize) -> u32
    requires { n ≤ 200 }
{
    let mut sum: u32 = 0;
    for i in n..200 {
        sum += u32::from(tables[i]);
    }
    sum
}

// The count, the used places, and the sum of the others.
fn put_queue(rt: HostRuntime, q: Queue) {
    let tables = q.tables;
    let n = used(q.count);
    put_number(rt, q.count);
    put_first(rt, tables, n);
    put_number(rt, sum_from(tables, n));
}

// A step that takes no table.
fn only(queue: Queue) -> QueueCalled
    ensures { queue_right result.taken ≡ true }
{
    let taken = Queue::empty();
    QueueCalled { queue, taken }
}

// The line of a joining or leaving.
fn change(rt: HostRuntime, letter: u8, number: u16, c: Changed) -> QueueCalled
    ensures { queue_right result.taken ≡ true }
{
    let queue = c.queue;
    start_line(rt, letter);
    put_number(rt, number);
    put_number(rt, c.refusal as u16);
    put_queue(rt, queue);
    end_line(rt);
    only(queue)
}

// The line of a call of the round.
fn handle(rt: HostRuntime, q: Queue, letter: u8, b: u16) -> QueueCalled
    ensures { queue_right result.taken ≡ true }
{
    let h = Handled::for_c(q, q.handle(b));
    let taken = h.taken;
    let queue = h.queue;
    start_line(rt, letter);
    put_number(rt, b);
    put_number(rt, h.refusal as u16);
    put_queue(rt, taken);
    put_queue(rt, queue);
    end_line(rt);
    QueueCalled { queue, taken }
}

fn with_place(q: Queue, place: u16, number: u16) -> Queue {
    if 199 < place {
        return q;
    }
    let mut tables = q.tables;
    tables[place as usize] = number;
    Queue {
        tables,
        count: q.count,
    }
}

fn with_count(q: Queue, count: u16) -> Queue {
    let tables = q.tables;
    Queue { tables, count }
}

// One record of the script.
pub(crate) fn step(rt: HostRuntime, q: Queue, r: Record) -> QueueCalled
    ensures { queue_right result.taken ≡ true }
{
    let letter = r.letter;
    let number = r.number;
    match letter {
        EMPTY => only(Queue::empty()),
        JOIN => change(rt, letter, number, Changed::for_c(q, q.join(number))),
        LEAVE => change(rt, letter, number, Changed::for_c(q, q.leave(number))),
        HANDLE => only(handle(rt, q, letter, number).queue),
        MORNING => handle(rt, q, letter, number),
        PLACE => only(with_place(q, number, r.second)),
        COUNT => only(with_count(q, number)),
        _ => only(q),
    }
}
