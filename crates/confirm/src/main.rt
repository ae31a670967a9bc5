// The program `confirm`: reads master.bin and, from standard input, an open, rolls and closes and a vendor's listing,
// and says whether that is the table's fresh listing.
#![tactic(auto)]

fn main(rt: HostRuntime) {
    confirm_program::scullpouch_program_confirm(rt);
}
