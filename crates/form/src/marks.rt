// Marks of a standing form as every entry reads them (document 02, order 5): a list of doubles, five to a
// mark.
ghost use Rattle.std.specs.Prelude.{◌≡◌, length};
ghost use Rattle.form.specs.Marks.{mark_of, mark_numbers, mark_at, point_of, pixel_of, point_at, points};

// A printed mark: where it is on the form, and where the camera saw it. In the terms of the field, a
// correspondence of a point in the world and one in the image.
#[derive(Clone, Copy)]
pub struct Mark {
    pub x: f64,
    pub y: f64,
    pub z: f64,
    pub u: f64,
    pub v: f64,
}

impl From<[f64; 5]> for Mark {
    ghost from_gives = { λ numbers m. m ≡ mark_of numbers };

    fn from(numbers: [f64; 5]) -> Mark {
        let [x, y, z, u, v] = numbers;
        Mark { x, y, z, u, v }
    }
}

impl Mark {
    #[tactic(auto, unfolding(crate::specs::Marks::mark_numbers))]
    pub fn numbers(self) -> [f64; 5]
        ensures { result ≡ mark_numbers self }
    {
        [self.x, self.y, self.z, self.u, self.v]
    }
}

// A point in space: on the form, or as the camera has it.
#[derive(Clone, Copy)]
pub struct Point {
    pub x: f64,
    pub y: f64,
    pub z: f64,
}

// A point of the picture.
#[derive(Clone, Copy)]
pub struct Pixel {
    pub u: f64,
    pub v: f64,
}

// The mark at place `i`; all zeros where there is none.
#[tactic(auto, using(crate::proofs::Places::read, crate::proofs::Places::no_mark_lem))]
pub fn mark_at(marks: &[f64], i: usize) -> Mark
    ensures { result ≡ mark_at marks.now i }
{
    if i < marks.len() / 5 {
        let p = 5 * i;
        Mark::from([
            marks[p],
            marks[p + 1],
            marks[p + 2],
            marks[p + 3],
            marks[p + 4],
        ])
    } else {
        Mark::from([0.0; 5])
    }
}

#[tactic(auto, unfolding(crate::specs::Marks::point_of))]
pub fn point_of(mark: Mark) -> Point
    ensures { result ≡ point_of mark }
{
    Point {
        x: mark.x,
        y: mark.y,
        z: mark.z,
    }
}

#[tactic(auto, unfolding(crate::specs::Marks::pixel_of))]
pub fn pixel_of(mark: Mark) -> Pixel
    ensures { result ≡ pixel_of mark }
{
    Pixel {
        u: mark.u,
        v: mark.v,
    }
}

// The points of a list of marks.
#[derive(Clone, Copy)]
pub struct Points<'a> {
    pub marks: &'a [f64],
}

impl<'a> Points<'a> {
    #[tactic(auto, using(crate::proofs::Places::points_fifth))]
    pub fn len(self) -> usize
        ensures { result ≡ length (points self.entry.marks.now) }
    {
        self.marks.len() / 5
    }

    // The point at place `i`; zeros where there is none.
    #[tactic(auto, unfolding(crate::specs::Marks::point_at))]
    pub fn at(self, i: usize) -> Point
        ensures { result ≡ point_at self.entry.marks.now i }
    {
        point_of(mark_at(self.marks, i))
    }
}
