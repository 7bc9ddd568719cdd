// The price curve in force.
ghost use Rattle.std.specs.Prelude.{◌≡◌, ◌+◌, take};
ghost use Rattle.goodput.specs.Curve.{in_force};

// Where prices come from: with a table it is the only source.
#[derive(Clone, Copy)]
pub enum Source {
    Roofline,
    Table,
}

// The first gamma + 1 prices of the measured curve where there is a table, else of the roofline, uncopied. Where there are
// fewer it is all there is: whether a curve is too short is for its reader to judge.
pub fn curve<'a>(
    roofline: &'a [f64],
    measured: &'a [f64],
    source: Source,
    gamma: usize,
) -> &'a [f64]
    ensures { result.now ≡ in_force roofline.now measured.now source gamma }
{
    match source {
        Source::Roofline => first_entries(roofline, gamma),
        Source::Table => first_entries(measured, gamma),
    }
}

// The first gamma + 1 entries, or all where there are fewer.
fn first_entries<'a>(s: &'a [f64], gamma: usize) -> &'a [f64]
    ensures { result.now ≡ take (gamma + 1) s.now }
{
    if gamma < s.len() {
        let end = gamma + 1;
        &s[..end]
    } else {
        s
    }
}
