// The lines of a report, each put behind the text that is there. A caller shows that there is room for the line.
#![tactic(auto)]

ghost use Rattle.std.specs.Prelude.{◌≡◌, ◌*◌, ◌≤◌, length};
ghost use Rattle.elements.specs.Element.{ELEMENT, elements_in};
ghost use Rattle.format.specs.Growing.{HasRoom, Grown};
ghost use Rattle.lines.specs.Lines.{size_line, keys_line, air_line, blocks_line, key_line, key_lines, hypothesis_line, buffer_line, count_lines, run_lines};

use classes::ClassCounts;
use elements::{Elements, Found, KeyedElement, element_at};
use engine::RunFigures;
use float::whole::to_whole;
use format::Text;
use measure::Hypothesis;

fn size_line(out: &mut Text<'_>, samples: usize, window: usize, blocks: usize)
    requires { HasRoom out.old (size_line samples window blocks) }
    ensures { Grown out.old (size_line samples window blocks) out.new }
{
    out.line(b"(size", &[samples, window, blocks]);
}

fn keys_line(out: &mut Text<'_>, found: Found, fitted: usize, skipped: usize)
    requires { HasRoom out.old (keys_line found fitted skipped) }
    ensures { Grown out.old (keys_line found fitted skipped) out.new }
{
    let numbers = [found.key_downs, found.listed, found.short, fitted, skipped];
    out.line(b"(keys", &numbers);
}

fn air_line(out: &mut Text<'_>, airtime: usize)
    requires { HasRoom out.old (air_line airtime) }
    ensures { Grown out.old (air_line airtime) out.new }
{
    out.line(b"(air", &[airtime]);
}

fn blocks_line(out: &mut Text<'_>, classes: ClassCounts)
    requires { HasRoom out.old (blocks_line classes) }
    ensures { Grown out.old (blocks_line classes) out.new }
{
    let numbers = [classes.edge, classes.interior, classes.gap, classes.other];
    out.line(b"(blocks", &numbers);
}

#[tactic(auto, using(crate::proofs::Lengths::count_length))]
fn count_lines(out: &mut Text<'_>, f: RunFigures)
    requires { HasRoom out.old (count_lines f) }
    ensures { Grown out.old (count_lines f) out.new }
{
    let found = f.estimate.found;
    size_line(out, f.samples, f.window, f.blocks);
    keys_line(out, found, f.estimate.fitted, f.skipped);
    air_line(out, found.airtime);
    blocks_line(out, f.classes);
}

fn key_line(out: &mut Text<'_>, e: KeyedElement)
    requires { HasRoom out.old (key_line e) }
    ensures { Grown out.old (key_line e) out.new }
{
    out.line(b"(key", &[to_whole(e.up), to_whole(e.down)]);
}

// A line for each element.
fn key_lines(out: &mut Text<'_>, elements: &Elements)
    requires { HasRoom out.old (key_lines (elements_in elements.now.numbers.now elements.now.count)) }
    ensures { Grown out.old (key_lines (elements_in elements.now.numbers.now elements.now.count)) out.new }
{
    for place in elements.each() {
        key_line(out, element_at(place, 0));
    }
}

fn hypothesis_line(h: Hypothesis) -> &'static [u8]
    ensures { result.now ≡ hypothesis_line h }
{
    match h {
        Hypothesis::OneSignal => b"(hypothesis one)\n",
        Hypothesis::TwoSignalCw { offset_hz: _ } => b"(hypothesis two)\n",
        Hypothesis::NonCw => b"(hypothesis noncw)\n",
        Hypothesis::Unresolved => b"(hypothesis unresolved)\n",
    }
}

fn buffer_line(taken: bool) -> &'static [u8]
    ensures { result.now ≡ buffer_line taken }
{
    if taken {
        b"(buffer taken))\n"
    } else {
        b"(buffer kept))\n"
    }
}

// What the run answers and lists, line by line. The list is lent flat, since f says how many elements it has: a list
// with its count would ask for one more clause, that both counts are the same.
#[tactic(auto, using(crate::proofs::Lengths::run_length))]
pub fn run_lines(out: &mut Text<'_>, f: RunFigures, elements: &[f64])
    requires listed_in_bounds { ELEMENT * f.estimate.found.listed ≤ length elements.now }
    requires listed_in_bounds_2 { HasRoom out.old (run_lines f (elements_in elements.now f.estimate.found.listed)) }
    ensures { Grown out.old (run_lines f (elements_in elements.now f.estimate.found.listed)) out.new }
{
    let listed = Elements::new(elements, f.estimate.found.listed);
    out.append(b"(run 0\n");
    count_lines(out, f);
    key_lines(out, &listed);
    out.append(hypothesis_line(f.hypothesis));
    out.append(buffer_line(f.taken));
}
