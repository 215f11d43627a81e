// Dimensions, kinds of samples, rectangles.
ghost use Rattle.std.specs.Prelude.{◌≡◌, ◌+◌, leb};
ghost use Rattle.lsm_format.specs.Code.{kind_of, dims_of, rect_of, coordinate_of, answer_of};
ghost use Rattle.lsm_format.specs.Sizes.{sample_size, unlimited_size, picture_size};
ghost use Rattle.lsm_format.specs.Rectangle.{is_empty, within, coordinates, rectangle, in_picture};

use crate::checked::{checked_add, checked_mul};
use crate::error::Refusal;
use crate::guard::MAX_DECODED_PLANE_BYTES;

// Byte order of the file.
#[derive(Clone, Copy)]
pub enum Endian {
    // "II"
    Little,
    // "MM"
    Big,
}

// The type of a sample.
#[derive(Clone, Copy)]
pub enum DType {
    U8,
    U16,
    I16,
    F32,
}

impl DType {
    // The bytes of one sample.
    pub fn size_bytes(self) -> usize
        ensures { result ≡ sample_size (kind_of self) }
    {
        match self {
            DType::U8 => 1,
            DType::U16 => 2,
            DType::I16 => 2,
            DType::F32 => 4,
        }
    }
}

// Time points, channels, depth, height and width of every scene of a file.
#[derive(Clone, Copy)]
pub struct Dims5 {
    pub t: usize,
    pub c: usize,
    pub z: usize,
    pub y: usize,
    pub x: usize,
}

impl Dims5 {
    // The bytes of one picture, refused only where they overflow: a picture above the limit can be read by rectangles.
    #[tactic(auto, using(crate::proofs::Sizes::samples_over, crate::proofs::Sizes::samples_fit, crate::proofs::Told::ok_or_given))]
    pub fn plane_bytes_no_ceiling(self, dtype: DType) -> Result<usize, Refusal>
        ensures { answer_of result ≡ unlimited_size self.x self.y (kind_of dtype) }
    {
        let overflow = Refusal::OversizedAllocation {
            requested: usize::MAX,
            cap: MAX_DECODED_PLANE_BYTES,
        };
        let samples = checked_mul(self.x, self.y).ok_or(overflow)?;
        checked_mul(samples, dtype.size_bytes()).ok_or(overflow)
    }

    // The bytes of one picture, refused also above the limit.
    #[tactic(auto, unfolding(crate::specs::Sizes::picture_size, crate::specs::Answer::bind))]
    pub fn checked_plane_bytes(self, dtype: DType) -> Result<usize, Refusal>
        ensures { answer_of result ≡ picture_size self.x self.y (kind_of dtype) }
    {
        let bytes = self.plane_bytes_no_ceiling(dtype)?;
        if bytes <= MAX_DECODED_PLANE_BYTES {
            Ok(bytes)
        } else {
            Err(Refusal::OversizedAllocation {
                requested: bytes,
                cap: MAX_DECODED_PLANE_BYTES,
            })
        }
    }
}

// The entry that announces the CZ-LSM-Info block: where the block stands in the file, and the bytes that the entry declares.
#[derive(Clone, Copy)]
pub struct CzTag {
    pub offset: usize,
    pub declared_bytes: usize,
}

// A rectangle of a picture: its left column and top row, its width and height, in samples.
#[derive(Clone, Copy)]
pub struct PixelRect {
    pub x: usize,
    pub y: usize,
    pub w: usize,
    pub h: usize,
}

impl PixelRect {
    pub fn new(x: usize, y: usize, w: usize, h: usize) -> PixelRect
        ensures { (result.x ≡ x) × (result.y ≡ y) × (result.w ≡ w) × (result.h ≡ h) }
    {
        PixelRect { x, y, w, h }
    }

    // Whether it covers no sample.
    pub fn is_empty(self) -> bool
        ensures { result ≡ is_empty (rect_of self) }
    {
        self.w == 0 || self.h == 0
    }
}

// Which picture is asked for.
#[derive(Clone, Copy)]
pub struct Coordinate {
    pub scene: usize,
    pub t: usize,
    pub c: usize,
    pub z: usize,
}

// Whether a coordinate lies within its scene.
#[tactic(auto, unfolding(crate::specs::Rectangle::coordinates))]
pub fn checked_coordinates(dims: Dims5, co: Coordinate) -> Result<(), Refusal>
    ensures { answer_of result ≡ coordinates (dims_of dims) (coordinate_of co) }
{
    if dims.t <= co.t || dims.c <= co.c || dims.z <= co.z {
        return Err(Refusal::OutOfRange {
            scene: co.scene,
            t: co.t,
            c: co.c,
            z: co.z,
        });
    }
    Ok(())
}

// Whether start plus extent doesn't overflow and is at most the size. The rule of rectangles names the overflow, that of strips the end alone; a size
// is a number of the machine, so that it is the same.
#[tactic(auto, unfolding(crate::specs::Words::word))]
pub fn within_size(start: usize, extent: usize, size: usize) -> bool
    ensures side { result ≡ within start extent size }
    ensures end { result ≡ leb (start + extent) size }
{
    checked_add(start, extent).is_some_and(|end| end <= size)
}

// Whether a rectangle lies within the picture.
#[tactic(auto, unfolding(crate::specs::Rectangle::rectangle))]
pub fn checked_rectangle(dims: Dims5, rect: PixelRect) -> Result<(), Refusal>
    ensures { answer_of result ≡ rectangle (dims_of dims) (rect_of rect) }
{
    if !within_size(rect.x, rect.w, dims.x) || !within_size(rect.y, rect.h, dims.y) {
        return Err(Refusal::Decode);
    }
    Ok(())
}

// The coordinate first, then the rectangle: a call that is wrong in both ways is told of the coordinate.
#[tactic(auto, unfolding(crate::specs::Rectangle::in_picture, crate::specs::Answer::bind))]
pub fn checked_region(dims: Dims5, co: Coordinate, rect: PixelRect) -> Result<(), Refusal>
    ensures { answer_of result ≡ in_picture (dims_of dims) (coordinate_of co) (rect_of rect) }
{
    checked_coordinates(dims, co)?;
    checked_rectangle(dims, rect)
}
