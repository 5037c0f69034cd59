// Marks as every entry reads them (document 01, 'Marks'): a list of doubles, four to a mark.
ghost use Rattle.std.specs.Prelude.{◌≡◌, length};
ghost use Rattle.sheet.specs.Marks.{mark_of, mark_numbers, mark_at, side_of, point_of, point_at, points, squared_apart};

// A printed mark: where it is on the sheet, and where the camera saw it. In the terms of the field, a
// point correspondence.
#[derive(Clone, Copy)]
pub struct Mark {
    pub x: f64,
    pub y: f64,
    pub u: f64,
    pub v: f64,
}

impl From<[f64; 4]> for Mark {
    ghost from_gives = { λ numbers m. m ≡ mark_of numbers };

    fn from(numbers: [f64; 4]) -> Mark {
        let [x, y, u, v] = numbers;
        Mark { x, y, u, v }
    }
}

impl Mark {
    #[tactic(auto, unfolding(crate::specs::Marks::mark_numbers))]
    pub fn numbers(self) -> [f64; 4]
        ensures { result ≡ mark_numbers self }
    {
        [self.x, self.y, self.u, self.v]
    }
}

#[derive(Clone, Copy)]
pub struct Point {
    pub x: f64,
    pub y: f64,
}

// Which of a mark's two points.
#[derive(Clone, Copy)]
pub enum Side {
    Sheet,
    Pixel,
}

// As C and files number them: 0 is the sheet's, every other number the pixel's.
impl From<u64> for Side {
    ghost from_gives = { λ n side. side ≡ side_of n };

    fn from(n: u64) -> Side {
        if n == 0 { Side::Sheet } else { Side::Pixel }
    }
}

// The mark at place `i`; all zeros where there is none.
#[tactic(auto, using(crate::proofs::Places::read, crate::proofs::Places::no_mark_lem))]
pub fn mark_at(marks: &[f64], i: usize) -> Mark
    ensures { result ≡ mark_at marks.now i }
{
    if i < marks.len() / 4 {
        let p = 4 * i;
        Mark::from([marks[p], marks[p + 1], marks[p + 2], marks[p + 3]])
    } else {
        Mark::from([0.0; 4])
    }
}

#[tactic(auto, unfolding(crate::specs::Marks::point_of))]
pub fn point_of(mark: Mark, side: Side) -> Point
    ensures { result ≡ point_of side mark }
{
    match side {
        Side::Sheet => Point {
            x: mark.x,
            y: mark.y,
        },
        Side::Pixel => Point {
            x: mark.u,
            y: mark.v,
        },
    }
}

// The points of one side of a list of marks.
#[derive(Clone, Copy)]
pub struct Points<'a> {
    pub marks: &'a [f64],
    pub side: Side,
}

impl<'a> Points<'a> {
    #[tactic(auto, using(crate::proofs::Places::points_quarter))]
    pub fn len(self) -> usize
        ensures { result ≡ length (points self.entry.side self.entry.marks.now) }
    {
        self.marks.len() / 4
    }

    // The point at place `i`; zeros where there is none.
    #[tactic(auto, unfolding(crate::specs::Marks::point_at))]
    pub fn at(self, i: usize) -> Point
        ensures { result ≡ point_at self.entry.side self.entry.marks.now i }
    {
        point_of(mark_at(self.marks, i), self.side)
    }
}

// The square of the distance of two points.
#[tactic(auto, unfolding(crate::specs::Marks::squared_apart))]
pub fn squared_apart(p: Point, q: Point) -> f64
    ensures { result ≡ squared_apart p q }
{
    let dx = p.x - q.x;
    let dy = p.y - q.y;
    dx * dx + dy * dy
}
