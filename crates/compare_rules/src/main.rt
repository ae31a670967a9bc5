// Prints what the libraries answer to many inputs, section by section. The second program writes the same text.
#![tactic(auto)]

mod calendars;
mod dates;
mod listings;
mod made_up;
mod patterns;
mod products;
mod second_maps;

fn main(rt: HostRuntime) {
    dates::print(rt);
    calendars::print(rt);
    products::print(rt);
    listings::print(rt);
    second_maps::print(rt);
    made_up::print(rt);
}
