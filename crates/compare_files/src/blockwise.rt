// A file loaded block by block.
ghost use Rattle.std.specs.Prelude.{◌≡◌, length};

use compare_text::{end_line, put_number, start_line};
use file_intake::Intake;
use file_load::Counts;

fn put_answer(rt: HostRuntime, refusal: u8, counts: Counts) {
    put_number(rt, refusal);
    put_number(rt, counts.years);
    put_number(rt, counts.records);
}

// The refusals of three calls: 511 bytes of a block, a final call before it, and the block.
fn hand_over(rt: HostRuntime, state: Intake, block: &[u8]) -> Intake
    requires { length block.now ≡ 512 }
{
    let short = state.take(&block[..511]);
    let before = short.state;
    let early = before.finish();
    let held = early.state;
    let next = held.take(block);
    put_number(rt, short.refusal);
    put_number(rt, early.refusal);
    put_number(rt, next.refusal);
    next.state
}

// The same of every block, then the refusal of one too many, and the answer of the final call.
fn hand_over_all(rt: HostRuntime, announced: Intake, file: &[u8]) {
    let blocks = file.len() / 512;
    let mut state = announced;
    for k in 0..blocks {
        state = hand_over(rt, state, file_blocks::block_at(file, k));
    }
    let more = state.take(file_blocks::block_at(file, 0));
    let held = more.state;
    let last = held.finish();
    put_number(rt, more.refusal);
    put_answer(rt, last.refusal, last.counts);
}

// The calls one by one; the announcement is of the file's whole blocks.
fn print_calls(rt: HostRuntime, file: &[u8]) {
    let blocks = file.len() / 512;
    if 65535 < blocks {
        return;
    }
    let first = file_intake::announce(blocks as u16);
    start_line(rt, b'U');
    put_number(rt, blocks);
    put_number(rt, first.refusal);
    if first.refusal == 0 {
        let state = first.state;
        hand_over_all(rt, state, file);
    }
    end_line(rt);
}

pub(crate) fn print(rt: HostRuntime, file: &[u8]) {
    let loaded = file_intake::load_by_blocks(file);
    start_line(rt, b'B');
    put_answer(rt, loaded.refusal, loaded.counts);
    end_line(rt);
    print_calls(rt, file);
}
