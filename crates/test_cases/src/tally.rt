// How many cases were compared and how many were the same, counted as they are compared.
ghost use Rattle.std.specs.Prelude.{◌≡◌};
ghost use Rattle.test_cases.specs.Tallied.{none, tallied};

#[derive(Clone, Copy)]
pub struct Tally {
    pub compared: u64,
    pub same: u64,
}

impl Tally {
    pub fn new() -> Self
        ensures { result ≡ none }
    {
        Tally {
            compared: 0,
            same: 0,
        }
    }

    // Wrapping sums, because they ask for no proof that a list stays below 2 to the 64.
    pub fn counted(self, same: bool) -> Self
        ensures { result ≡ tallied self same }
    {
        let compared = self.compared.wrapping_add(1);
        let same = if same {
            self.same.wrapping_add(1)
        } else {
            self.same
        };
        Tally { compared, same }
    }

    // A program's last line.
    pub fn report(self) {
        io::write_all(1, b"\n");
        io::print_decimal(1, self.compared);
        io::write_all(1, b" compared, ");
        io::print_decimal(1, self.same);
        io::write_all(1, b" the same\n");
    }
}
