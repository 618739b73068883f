//! The shape of a tensor.

ghost use Rattle.std.specs.Prelude.{◌≡◌, ◌≤◌, ◌<◌, ℕ, take, length, Option, IfSome};
ghost use Rattle.std.specs.List.{list_all, AllPass};
ghost use Rattle.dt_base.specs.Rows.{row_major, product};
ghost use Rattle.dt_model.specs.Shape.{dims, is_extent, are_extents, IsShape, shape_of_extents};

/// The extents of a tensor of order 0 to 4. Those that are not used are 1.
#[derive(Clone, Copy, Debug, PartialEq, Eq)]
pub struct Shape {
    pub order: u8,
    pub extents: [u32; 4],
}

impl Shape {
    /// The shape with these extents: at most four, each from 1 to 4,096, with a product of at most 16,777,216.
    pub fn from_extents(extents: &[u32]) -> Option<Shape>
        ensures shape { result ≡ shape_of_extents extents.now }
        ensures lawful { IfSome result IsShape }
        ensures dims { IfSome result (λ s. dims s ≡ extents.now) }
    {
        if extents.len() > 4 || !are_in_range(extents) || size(extents) > 16_777_216 {
            return None;
        }
        let mut all = [1u32; 4];
        for (i, n) in extents.iter().enumerate() {
            all[i] = *n;
        }
        Some(Shape {
            order: extents.len() as u8,
            extents: all,
        })
    }

    /// The extents that are used.
    pub fn dims(&self) -> &[u32]
        requires { IsShape self.now }
        ensures { result.now ≡ dims self.now }
    {
        &self.extents[..self.order as usize]
    }

    /// How many indices there are.
    pub fn count(&self) -> u32
        requires { IsShape self.now }
        ensures { result ≡ product (dims self.now) }
    {
        size(self.dims()) as u32
    }

    /// The row-major number of the coordinates, where they are some of this shape.
    pub fn index(&self, c: &[u32]) -> Option<u32>
        requires { IsShape self.now }
        ensures { result ≡ row_major (dims self.now) c.now }
    {
        if c.len() != self.order as usize {
            return None;
        }
        let mut number = 0u32;
        for (i, x) in c.iter().enumerate() {
            if *x >= self.extents[i] {
                return None;
            }
            number = number * self.extents[i] + *x;
        }
        Some(number)
    }
}

fn are_in_range(extents: &[u32]) -> bool
    ensures { result ≡ list_all is_extent extents.now }
{
    extents.iter().all(|n| 1 <= *n && *n <= 4096)
}

/// How many indices there are.
fn size(extents: &[u32]) -> u64
    requires few { length extents.now ≤ 4 }
    requires small { AllPass is_extent extents.now }
    ensures { result ≡ product extents.now }
{
    let mut size = 1u64;
    for n in extents {
        size *= u64::from(*n);
    }
    size
}
