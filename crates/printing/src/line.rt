// The lines of a reply.
ghost use Rattle.std.specs.Prelude.{[], ◌∷◌};
ghost use Rattle.rules.specs.Named.{kind_number, source_number};
ghost use Rattle.rules.specs.Paper.{refusal_on_paper};
ghost use Rattle.rules.specs.Place.{ending_on_paper};
ghost use Rattle.printing.specs.Text.{
  header_line,
  ending_lines,
  refused_line,
  decimal,
  line,
  rest_of_line,
  rest_of_refused,
  shortage,
};
ghost use Rattle.printing.specs.Put.{Wrote};

use crate::name::{kind_name, layer_name, source_name};
use crate::write::Printer;
use rules::{Ending, Kind, Refusal, Row, Source};

impl Printer<'_> {
    // A name, an offset and a length.
    fn range_line(&mut self, name: &str, offset: usize, len: usize)
        ensures { Wrote (line (name.now ∷ decimal offset ∷ decimal len ∷ [])) self.old self.new }
    {
        self.text(name);
        self.text(" ");
        self.number(offset);
        self.text(" ");
        self.number(len);
        self.text("\n");
    }

    #[tactic(auto, unfolding(crate::specs::Text::header_line))]
    pub fn header_line(&mut self, kind: Kind, offset: usize, len: usize)
        ensures { Wrote (header_line (kind_number kind) offset len) self.old self.new }
    {
        self.range_line(kind_name(kind), offset, len);
    }

    pub fn ending_lines(&mut self, ending: Ending)
        ensures { Wrote (ending_lines (ending_on_paper ending)) self.old self.new }
    {
        let Ending { payload, stop, .. } = ending;
        self.range_line("payload", payload.at, payload.len);
        self.text("stop ");
        self.number(stop.number());
        self.text("\n");
    }

    pub fn refused_line(&mut self, refusal: Refusal)
        ensures { Wrote (refused_line (refusal_on_paper refusal)) self.old self.new }
    {
        let row = Row::from(refusal);
        self.text("refused ");
        self.number(row.number);
        self.text(" ");
        self.text(layer_name(refusal.layer()));
        self.text(" ");
        self.number(row.offset);
        self.carried(refusal);
    }

    // What a refusal carries behind its offset, up to the line's end.
    fn carried(&mut self, refusal: Refusal)
        ensures { Wrote (rest_of_refused (refusal_on_paper refusal)) self.old self.new }
    {
        match refusal {
            Refusal::TooShort {
                required,
                have,
                source,
                ..
            } => self.shortage(required, have, source),
            Refusal::Ipv4Version { version, .. } => self.value(version),
            Refusal::SmallIhl { ihl, .. } => self.value(ihl),
            Refusal::Ipv6Version { version, .. } => self.value(version),
            Refusal::SmallDataOffset { value, .. } => self.value(value),
            Refusal::HopByHopNotAtStart { .. } | Refusal::ZeroAuthLength { .. } => self.text("\n"),
        }
    }

    fn shortage(&mut self, required: usize, have: usize, source: Source)
        ensures { Wrote (rest_of_line (shortage required have (source_number source))) self.old self.new }
    {
        self.text(" required ");
        self.number(required);
        self.text(" have ");
        self.number(have);
        self.text(" source ");
        self.text(source_name(source));
        self.text("\n");
    }

    fn value(&mut self, value: usize)
        ensures { Wrote (rest_of_line (decimal value ∷ [])) self.old self.new }
    {
        self.text(" ");
        self.number(value);
        self.text("\n");
    }
}
