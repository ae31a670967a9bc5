// What the programs print for --help and --version. tools/help writes this file of docs/help and VERSION.
#![tactic(auto)]

ghost use Rattle.std.specs.Prelude.{◌≡◌, true, ◌+◌, ◌%◌, ◌^◌, length};
ghost use Rattle.program_help.specs.TextLengths.{program_name, help_length, version_length};

use streams::Sent;

// The programs.
#[derive(Clone, Copy)]
pub enum Program {
    Terms,
    Compose,
    Decompose,
    Gateway,
    Confirm,
    Deliver,
    Reconcile,
    Query,
}

impl Program {
    // Its name.
    pub fn name(self) -> &'static [u8]
        ensures { result.now ≡ program_name self }
    {
        match self {
            Program::Terms => b"terms",
            Program::Compose => b"compose",
            Program::Decompose => b"decompose",
            Program::Gateway => b"gateway",
            Program::Confirm => b"confirm",
            Program::Deliver => b"deliver",
            Program::Reconcile => b"reconcile",
            Program::Query => b"query",
        }
    }

    // What a failed write to standard output is told with.
    fn output(self) -> &'static [u8] {
        match self {
            Program::Terms => b"terms: standard output",
            Program::Compose => b"compose: standard output",
            Program::Decompose => b"decompose: standard output",
            Program::Gateway => b"gateway: standard output",
            Program::Confirm => b"confirm: standard output",
            Program::Deliver => b"deliver: standard output",
            Program::Reconcile => b"reconcile: standard output",
            Program::Query => b"query: standard output",
        }
    }

    // The text of docs/help.
    fn help(self) -> &'static [u8]
        ensures { length result.now ≡ help_length self }
    {
        match self {
            Program::Terms =>
                b"usage: scullpouch terms < COMMANDS\n\nSays which maturities of a product are listed on a date, and on which day each\nof them stops trading. A command stands on a line of its own:\n\n  O ID DATE   open the table of a product on a date\n  R DATE      roll the table to a date\n  C DATE      close a day\n\nReads:    master.bin in the folder in which it is started; commands from\n          standard input.\nWrites:   after each command the letter, the date and how many maturities\n          entered, left and were numbered so far, and a line for each maturity:\n          listing number, month (of a weekly option the Friday), last trading\n          day, days moved back. NO and a number where a command is refused, BAD\n          for another line.\nExample:  printf 'O AXA 2008-03-20\\nR 2008-03-21\\n' | scullpouch terms\nStatus:   0 all well; 1 an answer is NO or BAD; 2 input or output failed, or\n          wrong arguments.\n",
            Program::Compose =>
                b"usage: scullpouch compose < TEXT > master.bin\n\nMakes a master file of its text. Lines that begin with # and empty lines say\nnothing; the others are:\n\n  Y FIRST YEARS                                the years of the file\n  S SEED FIRST YEARS                           the same, with made-up closed days\n  C DATE                                       a closed day\n  X DATE                                       a closed day on which payments run\n  P ID GROUP MARKET KIND SIZE TICK CURRENCY    a product\n\nReads:    the text from standard input.\nWrites:   the file, in one piece at the end, or nothing. On standard error BAD\n          and the number of a line that is none of these, or NO and a number\n          where the file would be refused, with the place at fault.\nExample:  scullpouch compose < master.txt > new && mv new master.bin\nStatus:   0 all well; 1 the text is refused or bad, and nothing is written;\n          2 input or output failed, or wrong arguments.\n",
            Program::Decompose =>
                b"usage: scullpouch decompose < master.bin\n\nPrints the text of a master file, of which compose makes the file again.\n\nReads:    the file from standard input.\nWrites:   the years, the closed days and the products, a line each; NO and a\n          number where the file is refused.\nExample:  scullpouch decompose < master.bin\nStatus:   0 all well; 1 the file is refused; 2 input or output failed, or wrong\n          arguments.\n",
            Program::Gateway =>
                b"usage: scullpouch gateway N < master.bin\n\nJudges a master file with one block of it in memory. N is the number of its\nblocks: its bytes / 512, 2 to 128.\n\nReads:    the file from standard input, 512 bytes at a time.\nWrites:   OK and the counts of years and of records, or NO and a number where\n          the file is refused; NO 1 where N is no number.\nExample:  scullpouch gateway $(($(wc -c < master.bin) / 512)) < master.bin\nStatus:   0 all well; 1 the file is refused; 2 input or output failed, or wrong\n          arguments.\n",
            Program::Confirm =>
                b"usage: scullpouch confirm < LISTING\n\nSays whether a listing of one product is its table's. The listing begins with\nthe commands that lead to the table, an O and any R and C as for terms; then a\nmaturity and its last trading day stand on each line:\n\n  O AXA 2008-03-20\n  2008-03 2008-03-20\n  2008-04 2008-04-18\n\nReads:    master.bin in the folder in which it is started; the listing, at most\n          65,536 bytes, from standard input.\nWrites:   one line: YES; DIFFERS and the smallest maturity that differs; REFUSED\n          and a number; or BAD and the number of a line. For all differences of\n          a whole delivery there is reconcile.\nExample:  scullpouch confirm < listing.txt\nStatus:   0 the answer is YES; 1 it is another one; 2 input or output failed, or\n          wrong arguments.\n",
            Program::Deliver =>
                b"usage: scullpouch deliver > DELIVERY\n\nPrints the tables of all products after the notices of many mornings.\n\nReads:    master.bin and notices.txt in the folder in which it is started. A\n          line of notices.txt is O DATE (the first), R DATE, C DATE, E DATE, or\n          M ID NEW OLD PRICE.\nWrites:   a heading and a row for each maturity of each product: product,\n          number, maturity, last_trading_day, days_back. On standard error the\n          calls that are refused, with the line of their notice, and the rows\n          are delivered all the same; a refused file, or a line that is no\n          notice, and then no row.\nExample:  scullpouch deliver > delivery.csv 2> refused.txt\nStatus:   0 all well; 1 something is refused or bad; 2 input or output failed,\n          or wrong arguments.\n",
            Program::Reconcile =>
                b"usage: scullpouch reconcile < DELIVERY\n\nSays of every product whether the rows of a delivery are those of its table\nafter the notices, in any order.\n\nReads:    master.bin and notices.txt in the folder in which it is started; rows\n          of three fields (product,maturity,last_trading_day) or of the five of\n          deliver from standard input, at most 65,536.\nWrites:   a heading and a line for each maturity that is missing, extra, twice,\n          or has another day, number or days_back, and for each product that\n          is not in the file. On standard error refused openings, rows that are\n          bad, and last the counts.\nExample:  scullpouch reconcile < delivery.csv > reload.csv\nStatus:   0 the delivery is right; 1 something differs, is refused or bad;\n          2 input or output failed, or wrong arguments.\n",
            Program::Query =>
                b"usage: scullpouch query < QUESTIONS\n\nAnswers questions about the tables of all products after the notices. A\nquestion stands on a line of its own:\n\n  AXA last 2008-06                the last trading day of a maturity\n  AXA due 2008-03-22              the due day of a date\n  AXA tick 12.3400                whether a price passes\n  AXA cash 3 12.3400 12.5000      cash: contracts, agreed and final price\n  AXA size                        the contract's size\n\nReads:    master.bin and notices.txt in the folder in which it is started;\n          questions from standard input.\nWrites:   the question and its answer, or NO and a number; BAD and the line's\n          number for another line. On standard error a refused file, or a line\n          that is no notice, and then no answer.\nExample:  echo 'AXA last 2008-06' | scullpouch query\nStatus:   0 all well; 1 an answer is NO or BAD, the file is refused or a notice\n          bad; 2 input or output failed, or wrong arguments.\n",
        }
    }

    // Its name and the version.
    fn version(self) -> &'static [u8]
        ensures { length result.now ≡ version_length self }
    {
        match self {
            Program::Terms => b"terms (scullpouch) 2.2.0\n",
            Program::Compose => b"compose (scullpouch) 2.2.0\n",
            Program::Decompose => b"decompose (scullpouch) 2.2.0\n",
            Program::Gateway => b"gateway (scullpouch) 2.2.0\n",
            Program::Confirm => b"confirm (scullpouch) 2.2.0\n",
            Program::Deliver => b"deliver (scullpouch) 2.2.0\n",
            Program::Reconcile => b"reconcile (scullpouch) 2.2.0\n",
            Program::Query => b"query (scullpouch) 2.2.0\n",
        }
    }

    // Writes what --help prints.
    pub fn write_help(self, rt: HostRuntime, sent: Sent) -> Sent
        ensures { result.open ≡ true → (sent.open ≡ true) × (result.bytes ≡ (sent.bytes + help_length self) % 2 ^ 64) }
    {
        streams::write_next(rt, sent, self.output(), self.help())
    }

    // Writes the version.
    pub fn write_version(self, rt: HostRuntime, sent: Sent) -> Sent
        ensures { result.open ≡ true → (sent.open ≡ true) × (result.bytes ≡ (sent.bytes + version_length self) % 2 ^ 64) }
    {
        streams::write_next(rt, sent, self.output(), self.version())
    }
}
