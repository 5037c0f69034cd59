// The cases of document 01, 'Sheets to try' and 'Refusals', of the leaves and of a sheet's geometry,
// and some traps beside them: each with what it answers, doubles as 16 hexadecimal digits. The file
// `stdout` has the answers that 01 gives, and of document 02 `beyond` by order 2 and the row ratios by
// order 3. Those of the picker are run by the comparison with the Rust.
#![tactic(auto)]

ghost use Rattle.std.specs.Prelude.{◌≡◌, ◌≤◌, length};

use numbers::Quadratic;
use rule::Refusal;
use sheet::{Mark, Model, Points, Side};
use std::{fmt, io};

// A double, as its bits, or `nan`.
#[derive(Clone, Copy)]
struct Bits(f64);

impl fmt::Display for Bits {
    fn fmt<W: fmt::Write>(&self, f: &mut fmt::Formatter<W>) -> fmt::Result {
        if self.0.is_nan() {
            return write!(f, "nan");
        }
        let bits = self.0.to_bits();
        write!(f, "{bits:016x}")
    }
}

// Each number of a list as its bits, after a space.
#[derive(Clone, Copy)]
struct Places<'a>(&'a [f64]);

impl<'a> fmt::Display for Places<'a> {
    fn fmt<W: fmt::Write>(&self, f: &mut fmt::Formatter<W>) -> fmt::Result {
        for x in self.0 {
            write!(f, " {}", Bits(*x))?;
        }
        Ok(())
    }
}

// What `sheet::distance` answers.
#[derive(Clone, Copy)]
struct Measured(Result<Option<f64>, Refusal>);

impl fmt::Display for Measured {
    fn fmt<W: fmt::Write>(&self, f: &mut fmt::Formatter<W>) -> fmt::Result {
        match self.0 {
            Ok(Some(d)) => write!(f, "{}", Bits(d)),
            Ok(None) => write!(f, "beyond"),
            Err(refusal) => write!(f, "{refusal}"),
        }
    }
}

fn show_root(rt: &impl Print, name: &str, a: f64) -> io::Result<()> {
    match root::root(a) {
        Ok(y) => println!(rt; "{name} {}", Bits(y)),
        Err(refusal) => println!(rt; "{name} {refusal}"),
    }
}

fn show_quadratic(rt: &impl Print, name: &str, a: f64, b: f64, c: f64) -> io::Result<()> {
    match numbers::solve_quadratic_real(a, b, c) {
        Ok(Quadratic::NoRoot) => println!(rt; "{name} none"),
        Ok(Quadratic::One(x)) => println!(rt; "{name} {}", Bits(x)),
        Ok(Quadratic::Two(x, y)) => println!(rt; "{name} {} {}", Bits(x), Bits(y)),
        Err(refusal) => println!(rt; "{name} {refusal}"),
    }
}

fn show_rank(
    rt: &impl Print,
    name: &str,
    values: &[f64],
    cols: usize,
    null: usize,
    tolerance: f64,
) -> io::Result<()> {
    if numbers::dlt_rank_ok(values, cols, null, tolerance) {
        println!(rt; "{name} yes")
    } else {
        println!(rt; "{name} no")
    }
}

fn roots(rt: &impl Print) -> io::Result<()> {
    show_root(rt, "root 4:", 4.0)?;
    show_root(rt, "root 2^-1074:", 5e-324)?;
    show_root(rt, "root 0:", 0.0)?;
    show_root(rt, "root -0:", -0.0)?;
    show_root(rt, "root infinity:", f64::INFINITY)?;
    show_root(rt, "root of the double before 1:", 0.9999999999999999)?;
    show_root(rt, "root -1:", -1.0)?;
    show_root(rt, "root -infinity:", f64::NEG_INFINITY)?;
    show_root(rt, "root NaN:", f64::NAN)
}

fn quadratics(rt: &impl Print) -> io::Result<()> {
    show_quadratic(rt, "quadratic 1, -3, 2:", 1.0, -3.0, 2.0)?;
    show_quadratic(rt, "quadratic 1, 0, 0:", 1.0, 0.0, 0.0)?;
    show_quadratic(rt, "quadratic 1, 0, 1:", 1.0, 0.0, 1.0)?;
    show_quadratic(rt, "quadratic 0, 2, -4:", 0.0, 2.0, -4.0)?;
    show_quadratic(rt, "quadratic 1, -0, 0:", 1.0, -0.0, 0.0)?;
    show_quadratic(rt, "quadratic 0, 2, 0:", 0.0, 2.0, 0.0)?;
    show_quadratic(rt, "quadratic -1, 3, -2:", -1.0, 3.0, -2.0)?;
    show_quadratic(rt, "quadratic 0, 0, 1:", 0.0, 0.0, 1.0)?;
    show_quadratic(rt, "quadratic 1, 2e100, 1:", 1.0, 2e100, 1.0)
}

fn ranks(rt: &impl Print) -> io::Result<()> {
    let values = [4.0, 2.0, 1.0];
    show_rank(
        rt,
        "rank of 4 2 1, 4 columns, null 1, 0.25:",
        &values,
        4,
        1,
        0.25,
    )?;
    show_rank(
        rt,
        "rank of 4 2 1, 4 columns, null 1, 0.5:",
        &values,
        4,
        1,
        0.5,
    )?;
    show_rank(
        rt,
        "rank of 4 2 1, 1 column, null 1, 0:",
        &values,
        1,
        1,
        0.0,
    )?;
    show_rank(
        rt,
        "rank of 4 2 1, 5 columns, null 1, 0:",
        &values,
        5,
        1,
        0.0,
    )
}

fn ranks_of_signs(rt: &impl Print) -> io::Result<()> {
    let signs = [1.0, -1.0];
    show_rank(
        rt,
        "rank of 1 -1, 3 columns, null 1, -infinity:",
        &signs,
        3,
        1,
        f64::NEG_INFINITY,
    )?;
    show_rank(
        rt,
        "rank of 1 -1, null 2^64 - 1:",
        &signs,
        3,
        18446744073709551615,
        f64::NEG_INFINITY,
    )
}

fn points<'a>(marks: &'a [f64], side: Side) -> Points<'a> {
    Points { marks, side }
}

fn show_collinear(rt: &impl Print, name: &str, points: Points) -> io::Result<()> {
    match line::points_are_collinear(points) {
        Ok(true) => println!(rt; "{name} yes"),
        Ok(false) => println!(rt; "{name} no"),
        Err(refusal) => println!(rt; "{name} {refusal}"),
    }
}

// The refusal, if it is one; five places of a list of 7.0, of which the first `room` were lent; and
// the last column of the matrix, but for its 1. A refused call gives no matrix: zeros stand for it.
fn show_normalized(rt: &impl Print, name: &str, points: Points, room: usize) -> io::Result<()>
    requires { room ≤ 72 }
{
    let mut lent = [7.0; 72];
    let answer = linalg::normalize_points_2d(points, &mut lent[..room]);
    let places = Places(&lent[..5]);
    match answer {
        Ok(normalized) => {
            let [first, second, _] = normalized.matrix;
            let (x, y) = (Bits(first.cells[2]), Bits(second.cells[2]));
            println!(rt; "{name}{places}, centre {x} {y}")
        }
        Err(refusal) => {
            let zero = Bits(0.0);
            println!(rt; "{name} {refusal}{places}, centre {zero} {zero}")
        }
    }
}

// The refusal, or the first mark's two rows, with `room` places lent.
fn show_rows(rt: &impl Print, name: &str, marks: &[f64], room: usize) -> io::Result<()>
    requires { room ≤ 72 }
{
    let mut lent = [7.0; 72];
    match homography::dlt_rows(marks, &mut lent[..room]) {
        Ok(()) => println!(rt; "{name}{}", Places(&lent[..18])),
        Err(refusal) => println!(rt; "{name} {refusal}"),
    }
}

fn distance(h: Model, m: Mark, ratio: f64) -> Measured {
    Measured(sheet::distance(h, m, ratio))
}

fn show_distance(rt: &impl Print, name: &str, h: Model, m: Mark, ratio: f64) -> io::Result<()> {
    println!(rt; "{name} {}", distance(h, m, ratio))
}

// The five marks of 01's square, the last printed three too far down.
fn show_square(rt: &impl Print, name: &str, h: Model) -> io::Result<()> {
    let a = distance(h, at(0.0, 0.0, 0.0, 0.0), 1.0);
    let b = distance(h, at(100.0, 0.0, 100.0, 0.0), 1.0);
    let c = distance(h, at(100.0, 100.0, 100.0, 100.0), 1.0);
    let d = distance(h, at(0.0, 100.0, 0.0, 100.0), 1.0);
    let e = distance(h, at(50.0, 50.0, 50.0, 53.0), 1.0);
    println!(rt; "{name} {a} {b} {c} {d} {e}")
}

fn at(x: f64, y: f64, u: f64, v: f64) -> Mark {
    Mark { x, y, u, v }
}

// Four marks as a list of numbers. (No plainer by `numbers` and copies.)
fn list(a: Mark, b: Mark, c: Mark, d: Mark) -> [f64; 16]
    ensures { 16 ≡ length result }
{
    [
        a.x, a.y, a.u, a.v, b.x, b.y, b.u, b.v, c.x, c.y, c.u, c.v, d.x, d.y, d.u, d.v,
    ]
}

// On a line on the sheet, and not as pixels.
fn sheet_line() -> [f64; 16]
    ensures { 16 ≡ length result }
{
    list(
        at(0.0, 0.0, 0.0, 0.0),
        at(1.0, 0.0, 1.0, 1.0),
        at(2.0, 0.0, 0.0, 2.0),
        at(3.0, 0.0, 3.0, 3.0),
    )
}

fn lines(rt: &impl Print) -> io::Result<()> {
    let origin = at(0.0, 0.0, 0.0, 0.0);
    let nearly = list(
        origin,
        at(0.0005, 0.0, 0.0, 0.0),
        at(0.0, 0.001, 0.0, 0.0),
        origin,
    );
    let straight = sheet_line();
    let wide = list(origin, at(2e9, 0.0, 0.0, 0.0), origin, origin);
    let three = &nearly[..12];
    let two = &straight[..8];
    let none = &straight[..0];
    let uneven = &straight[..7];
    show_collinear(
        rt,
        "collinear (0,0) (0.0005,0) (0,0.001):",
        points(three, Side::Sheet),
    )?;
    show_collinear(rt, "collinear two points:", points(two, Side::Sheet))?;
    show_collinear(rt, "collinear no points:", points(none, Side::Sheet))?;
    show_collinear(
        rt,
        "collinear (0,0) (1,0) (2,0) (3,0):",
        points(&straight, Side::Sheet),
    )?;
    show_collinear(
        rt,
        "collinear their pixels:",
        points(&straight, Side::Pixel),
    )?;
    show_collinear(rt, "collinear 7 numbers:", points(uneven, Side::Sheet))?;
    show_collinear(rt, "collinear x = 2e9:", points(&wide, Side::Pixel))
}

fn normalisings(rt: &impl Print) -> io::Result<()> {
    let origin = at(0.0, 0.0, 0.0, 0.0);
    let pair = list(
        at(1.0, 1.0, 0.0, 0.0),
        at(-1.0, -1.0, 0.0, 0.0),
        origin,
        origin,
    );
    let signed = list(
        at(-0.0, 1.0, 0.0, 0.0),
        at(-0.0, 3.0, 4.440892098500626e-16, 0.0),
        origin,
        origin,
    );
    let two = &pair[..8];
    let two_signed = &signed[..8];
    let none = &pair[..0];
    show_normalized(
        rt,
        "normalising (1,1) (-1,-1):",
        points(two, Side::Sheet),
        4,
    )?;
    show_normalized(
        rt,
        "normalising (-0,1) (-0,3):",
        points(two_signed, Side::Sheet),
        5,
    )?;
    show_normalized(rt, "normalising two at (0,0):", points(two, Side::Pixel), 4)?;
    show_normalized(
        rt,
        "normalising (0,0) (2^-51,0):",
        points(two_signed, Side::Pixel),
        4,
    )?;
    show_normalized(rt, "normalising no points:", points(none, Side::Sheet), 4)?;
    show_normalized(
        rt,
        "normalising two points, 3 places:",
        points(two, Side::Sheet),
        3,
    )
}

// The square around the origin: its normalised points are its own.
fn rows(rt: &impl Print) -> io::Result<()> {
    let square = list(
        at(1.0, 1.0, 1.0, 1.0),
        at(-1.0, 1.0, -1.0, 1.0),
        at(-1.0, -1.0, -1.0, -1.0),
        at(1.0, -1.0, 1.0, -1.0),
    );
    let sheet = sheet_line();
    let pixel = list(
        at(0.0, 0.0, 0.0, 0.0),
        at(1.0, 1.0, 1.0, 0.0),
        at(0.0, 2.0, 2.0, 0.0),
        at(3.0, 3.0, 3.0, 0.0),
    );
    let three = &square[..12];
    show_rows(rt, "rows of four marks, 71 places:", &square, 71)?;
    show_rows(rt, "rows of three marks:", three, 72)?;
    show_rows(rt, "rows, sheet on a line:", &sheet, 72)?;
    show_rows(rt, "rows, pixels on a line:", &pixel, 72)?;
    show_rows(rt, "rows of (1,1), the first of four marks:", &square, 72)
}

// The identity but for h5, h6, h7 and h8.
fn model(h5: f64, h6: f64, h7: f64, h8: f64) -> Model {
    Model::from([1.0, 0.0, 0.0, 0.0, 1.0, h5, h6, h7, h8])
}

fn distances(rt: &impl Print) -> io::Result<()> {
    let middle = at(50.0, 50.0, 50.0, 53.0);
    let here = model(0.0, 0.0, 0.0, 1.0);
    let wide = at(1e9, 1e9, 0.0, 2e9);
    show_distance(
        rt,
        "distance under I of (50,50) at pixel (50,53):",
        here,
        middle,
        1.0,
    )?;
    show_distance(
        rt,
        "distance with h5 = 3:",
        model(3.0, 0.0, 0.0, 1.0),
        middle,
        1.0,
    )?;
    show_distance(
        rt,
        "distance with h5 = 1e200:",
        model(1e200, 0.0, 0.0, 1.0),
        middle,
        1.0,
    )?;
    show_distance(
        rt,
        "distance with h8 a NaN, and v = 2e9:",
        model(0.0, 0.0, 0.0, f64::NAN),
        wide,
        1.0,
    )?;
    show_distance(rt, "distance with v = 2e9:", here, wide, 1.0)
}

fn horizons(rt: &impl Print) -> io::Result<()> {
    let far = at(1e9, 1e9, 0.0, 0.0);
    show_square(rt, "distances of the square:", model(0.0, 0.0, 0.0, 1.0))?;
    show_square(
        rt,
        "distances of the square with h8 = -1:",
        model(0.0, 0.0, 0.0, -1.0),
    )?;
    show_square(
        rt,
        "distances of the square with s = 50 - x:",
        model(0.0, -1.0, 0.0, 50.0),
    )?;
    show_square(
        rt,
        "distances of the square with s = 0:",
        model(0.0, 0.0, 0.0, 0.0),
    )?;
    show_distance(
        rt,
        "distance with s a NaN:",
        model(0.0, 1e308, -1e308, 1.0),
        far,
        1.0,
    )?;
    show_distance(
        rt,
        "distance with s infinite:",
        model(0.0, 1e300, 0.0, 1.0),
        far,
        1.0,
    )
}

// A mark three too far down, and one that is four too far right and one and a half too far down, by
// ratios within the limits and outside.
fn ratios(rt: &impl Print) -> io::Result<()> {
    let here = model(0.0, 0.0, 0.0, 1.0);
    let low = at(50.0, 50.0, 50.0, 53.0);
    let aside = at(50.0, 50.0, 54.0, 51.5);
    show_distance(rt, "distance by ratio 2:", here, low, 2.0)?;
    show_distance(rt, "distance by ratio 0.5:", here, low, 0.5)?;
    show_distance(rt, "distance of (4,1.5) off by ratio 2:", here, aside, 2.0)?;
    show_distance(rt, "distance by ratio 0.01:", here, low, 0.01)?;
    show_distance(rt, "distance by ratio 100:", here, low, 100.0)?;
    show_distance(
        rt,
        "distance by the ratio before 0.01:",
        here,
        low,
        0.009999999999999998,
    )?;
    show_distance(
        rt,
        "distance by the ratio after 100:",
        here,
        low,
        100.00000000000001,
    )?;
    show_distance(rt, "distance by ratio 0:", here, low, 0.0)?;
    show_distance(rt, "distance by ratio -1:", here, low, -1.0)?;
    show_distance(rt, "distance by ratio infinity:", here, low, f64::INFINITY)?;
    show_distance(rt, "distance by ratio NaN:", here, low, f64::NAN)
}

// 1, then 6, then 16; beyond where none of them is.
fn ratios_in_order(rt: &impl Print) -> io::Result<()> {
    let behind = model(0.0, 0.0, 0.0, -1.0);
    let none = model(0.0, 0.0, 0.0, f64::NAN);
    let low = at(50.0, 50.0, 50.0, 53.0);
    let wide = at(50.0, 50.0, 50.0, 2e9);
    show_distance(
        rt,
        "distance with h8 a NaN, v = 2e9 and ratio 0:",
        none,
        wide,
        0.0,
    )?;
    show_distance(rt, "distance with h8 a NaN and ratio 0:", none, low, 0.0)?;
    show_distance(rt, "distance with v = 2e9 and ratio 0:", behind, wide, 0.0)?;
    show_distance(rt, "distance with h8 = -1 and ratio 0:", behind, low, 0.0)?;
    show_distance(rt, "distance with h8 = -1 and ratio 2:", behind, low, 2.0)
}

fn main(rt: HostRuntime) -> io::Result<()> {
    roots(&rt)?;
    quadratics(&rt)?;
    ranks(&rt)?;
    ranks_of_signs(&rt)?;
    lines(&rt)?;
    normalisings(&rt)?;
    rows(&rt)?;
    distances(&rt)?;
    horizons(&rt)?;
    ratios(&rt)?;
    ratios_in_order(&rt)
}
