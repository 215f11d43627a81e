// What a line's numbers ask for: each takes them from the front, and gives the numbers behind.
ghost use Rattle.std.specs.Prelude.{◌≡◌, ◌∷◌, ◌<◌, ◌↔◌, length, IfSome, IsNone};

use lsm_format::types::{Coordinate, PixelRect};

// The coordinate that numbers begin with.
pub fn coordinate(numbers: &[usize]) -> Option<(Coordinate, &[usize])>
    ensures some { IfSome result (λ r. numbers.now ≡ r.0.scene ∷ r.0.t ∷ r.0.c ∷ r.0.z ∷ r.1.now) }
    ensures none { IsNone result ↔ (length numbers.now < 4) }
{
    let ([scene, t, c, z], rest) = numbers.split_first_chunk::<4>()?;
    let co = Coordinate {
        scene: *scene,
        t: *t,
        c: *c,
        z: *z,
    };
    Some((co, rest))
}

// The rectangle that numbers begin with.
pub fn rectangle(numbers: &[usize]) -> Option<(PixelRect, &[usize])>
    ensures some { IfSome result (λ r. numbers.now ≡ r.0.x ∷ r.0.y ∷ r.0.w ∷ r.0.h ∷ r.1.now) }
    ensures none { IsNone result ↔ (length numbers.now < 4) }
{
    let ([x, y, w, h], rest) = numbers.split_first_chunk::<4>()?;
    Some((PixelRect::new(*x, *y, *w, *h), rest))
}
