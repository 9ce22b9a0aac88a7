// A text is cut at its line feeds into lines, and a line at its commas into items: where a piece ends.
#![tactic(auto)]

ghost use Rattle.std.specs.Prelude.{◌≡◌};
ghost use Rattle.items.specs.Items.{end_of};

// Where the piece that starts at a place ends: at the next stop, or at the end of all.
pub fn end_of(s: &[u8], from: usize, stop: u8) -> usize
    ensures { result ≡ end_of stop s.now from }
{
    for i in from..s.len() {
        if s[i] == stop {
            return i;
        }
    }
    from.max(s.len())
}
