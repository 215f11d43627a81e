// One image file directory: its entries, what they state, and what pages agree on.
#![tactic(auto)]

ghost use Rattle.std.specs.Prelude.{◌≡◌, ◌<◌, ℕ, List, option_map};
ghost use Rattle.lsm_format.specs.Code.{order_of, answer_of, answer_by};
ghost use Rattle.lsm_format.specs.Numbers.{Order};
ghost use Rattle.lsm_format.specs.Directory as Rule;
ghost use Rattle.lsm_format.specs.Directory.{plain, planar, tag_of, is_reduced, is_short, sample_bits, cz_lsm_info, entry_by, entry};
ghost use Rattle.lsm_format.specs.Open.{channels, same_geometry};
ghost use Rattle.lsm_format.specs.Open as Open;
ghost use Rattle.lsm_values.specs.Code.{entry_of};
ghost use Rattle.lsm_directory.specs.Code.{field_meant, tag_meant, numbers_of, directory_of, put_stated, ends_of};

mod bounds;

pub use bounds::Ends;
use lsm_bytes::{read_u16, read_u32};
use lsm_format::error::Refusal;
use lsm_format::types::{CzTag, Endian};
use lsm_values::{
    Array, Entry, Values, all_equal, read_array, read_scalar, scalar_values, tiff_type_size,
    value_at,
};

// What a directory states. Of BitsPerSample it is the first value, and where all of them are.
#[derive(Clone, Copy)]
pub struct Directory {
    pub new_subfile_type: u32,
    pub width: u32,
    pub height: u32,
    pub bits: u32,
    pub bits_values: Option<Values>,
    pub compression: u32,
    pub samples: u32,
    pub planar_configuration: u32,
    pub sample_format: u32,
    pub offsets: Array,
    pub counts: Array,
    pub cz: Option<CzTag>,
}

impl Default for Directory {
    ghost is_default = { λ d. (o : Order) (f : List ℕ) → directory_of o f d ≡ plain };

    // What a directory states that states nothing.
    #[tactic(auto, unfolding(lsm_values::specs::Values::values))]
    fn default() -> Directory {
        Directory {
            new_subfile_type: 0,
            width: 0,
            height: 0,
            bits: 1,
            bits_values: None,
            compression: 1,
            samples: 1,
            planar_configuration: 1,
            sample_format: 1,
            offsets: Array::EMPTY,
            counts: Array::EMPTY,
            cz: None,
        }
    }
}

impl Directory {
    // Whether each channel has a plane of samples of its own. Any other number than 2 says that it has none.
    pub fn is_planar(self) -> bool
        ensures { result ≡ planar (numbers_of self) }
    {
        self.planar_configuration == 2
    }

    // How many channels its page has.
    pub fn channels(self) -> usize
        ensures { (result ≡ channels (numbers_of self)) × (0 < result) }
    {
        self.samples.max(1) as usize
    }
}

// The tags of scalars that are used, but for BitsPerSample.
#[derive(Clone, Copy)]
pub enum Field {
    NewSubfileType,
    ImageWidth,
    ImageLength,
    Compression,
    SamplesPerPixel,
    PlanarConfiguration,
    SampleFormat,
}

impl Field {
    // Whether it has 16 bits.
    fn is_short(self) -> bool
        ensures { result ≡ is_short (field_meant self) }
    {
        match self {
            Field::Compression | Field::SamplesPerPixel | Field::SampleFormat => true,
            Field::NewSubfileType
            | Field::ImageWidth
            | Field::ImageLength
            | Field::PlanarConfiguration => false,
        }
    }
}

// What an entry is for, by its tag.
#[derive(Clone, Copy)]
pub enum Tag {
    Field(Field),
    SampleBits,
    StripOffsets,
    StripByteCounts,
    CzLsmInfo,
    Other,
}

impl From<u16> for Tag {
    ghost from_gives = { λ tag result. tag_meant result ≡ tag_of tag };

    fn from(tag: u16) -> Tag {
        match tag {
            254 => Tag::Field(Field::NewSubfileType),
            256 => Tag::Field(Field::ImageWidth),
            257 => Tag::Field(Field::ImageLength),
            258 => Tag::SampleBits,
            259 => Tag::Field(Field::Compression),
            273 => Tag::StripOffsets,
            277 => Tag::Field(Field::SamplesPerPixel),
            279 => Tag::StripByteCounts,
            284 => Tag::Field(Field::PlanarConfiguration),
            339 => Tag::Field(Field::SampleFormat),
            34412 => Tag::CzLsmInfo,
            _ => Tag::Other,
        }
    }
}

// What an entry states. An entry is read apart from the directory that it goes into, so that a long chain does not carry directories through
// its answers.
#[derive(Clone, Copy)]
pub enum Value {
    Scalar(Field, u32),
    Bits(u32, Values),
    Offsets(Array),
    Counts(Array),
    Cz(CzTag),
    Nothing,
}

// Bit 0 marks a reduced page and bit 2 a mask: neither is a picture.
pub fn is_reduced(v: u32) -> bool
    ensures { result ≡ is_reduced v }
{
    v % 2 == 1 || v / 4 % 2 == 1
}

// The directory with what an entry states. Of a repeated tag the last wins.
pub fn put_value(d: Directory, v: Value) -> Directory
    ensures { (o : Order) (f : List ℕ) → directory_of o f result ≡ put_stated o f v (directory_of o f d) }
{
    match v {
        Value::Scalar(Field::NewSubfileType, new_subfile_type) => Directory {
            new_subfile_type,
            ..d
        },
        Value::Scalar(Field::ImageWidth, width) => Directory { width, ..d },
        Value::Scalar(Field::ImageLength, height) => Directory { height, ..d },
        Value::Scalar(Field::Compression, compression) => Directory { compression, ..d },
        Value::Scalar(Field::SamplesPerPixel, samples) => Directory { samples, ..d },
        Value::Scalar(Field::PlanarConfiguration, planar_configuration) => Directory {
            planar_configuration,
            ..d
        },
        Value::Scalar(Field::SampleFormat, sample_format) => Directory { sample_format, ..d },
        Value::Bits(bits, values) => Directory {
            bits,
            bits_values: Some(values),
            ..d
        },
        Value::Offsets(offsets) => Directory { offsets, ..d },
        Value::Counts(counts) => Directory { counts, ..d },
        Value::Cz(tag) => Directory { cz: Some(tag), ..d },
        Value::Nothing => d,
    }
}

// The entry of BitsPerSample: its first value, and where all of them are. The others are read when the directory is whole.
#[tactic(auto, unfolding(lsm_format::specs::Directory::scalar, lsm_format::specs::Answer::bind))]
fn bits_value(buf: &[u8], entry: Entry, e: Endian) -> Result<Value, Refusal>
    ensures { (d : Rule.Directory) → answer_by (λ s. put_stated (order_of e) buf.now s d) result ≡ entry_by sample_bits (order_of e) buf.now entry.ty entry.count entry.off d }
{
    let values = scalar_values(buf, entry, e)?;
    let bits = value_at(buf, values.ty, values.place, e)?;
    if 65_535 < bits {
        return Err(Refusal::Decode);
    }
    Ok(Value::Bits(bits, values))
}

// The CZ entry: its values never fit into four bytes, so it holds an offset.
#[tactic(auto, unfolding(lsm_format::specs::Answer::bind), using(lsm_format::proofs::Directory::type_size_small))]
fn cz_value(buf: &[u8], entry: Entry, e: Endian) -> Result<Value, Refusal>
    ensures { (d : Rule.Directory) → answer_by (λ s. put_stated (order_of e) buf.now s d) result ≡ entry_by cz_lsm_info (order_of e) buf.now entry.ty entry.count entry.off d }
{
    let declared_bytes = tiff_type_size(entry.ty) * (entry.count as usize);
    if declared_bytes <= 4 {
        return Err(Refusal::Decode);
    }
    let offset = read_u32(buf, entry.off, e)? as usize;
    Ok(Value::Cz(CzTag {
        offset,
        declared_bytes,
    }))
}

// What an entry states, by its tag.
#[tactic(auto, unfolding(lsm_format::specs::Answer::bind))]
fn value_by(buf: &[u8], t: Tag, entry: Entry, e: Endian) -> Result<Value, Refusal>
    ensures { (d : Rule.Directory) → answer_by (λ s. put_stated (order_of e) buf.now s d) result ≡ entry_by (tag_meant t) (order_of e) buf.now entry.ty entry.count entry.off d }
{
    match t {
        Tag::Field(field) => {
            let v = read_scalar(buf, entry, e)?;
            if 65_535 < v && field.is_short() {
                return Err(Refusal::Decode);
            }
            Ok(Value::Scalar(field, v))
        }
        Tag::SampleBits => bits_value(buf, entry, e),
        Tag::StripOffsets => Ok(Value::Offsets(read_array(buf, entry, e)?)),
        Tag::StripByteCounts => Ok(Value::Counts(read_array(buf, entry, e)?)),
        Tag::CzLsmInfo => cz_value(buf, entry, e),
        Tag::Other => Ok(Value::Nothing),
    }
}

// What the entry at a place states, whatever the entries before it stated.
#[tactic(auto, unfolding(lsm_format::specs::Directory::entry, lsm_format::specs::Answer::bind), using(crate::proofs::Laws::inside_or))]
pub fn read_entry(buf: &[u8], at: usize, e: Endian) -> Result<Value, Refusal>
    ensures { (d : Rule.Directory) → answer_by (λ s. put_stated (order_of e) buf.now s d) result ≡ entry (order_of e) buf.now at d }
{
    let tag = read_u16(buf, at, e)?;
    let ty = read_u16(buf, at + 2, e)?;
    let count = read_u32(buf, at + 4, e)?;
    let off = at + 8;
    value_by(buf, Tag::from(tag), Entry { ty, count, off }, e)
}

// A directory's count of entries and its next pointer, which comes before any entry.
#[tactic(auto, unfolding(lsm_format::specs::Directory::ends, lsm_format::specs::Answer::bind), using(crate::proofs::Laws::inside_or))]
pub fn directory_ends(buf: &[u8], place: usize, e: Endian) -> Result<Ends, Refusal>
    ensures { answer_by ends_of result ≡ Rule.ends (order_of e) buf.now place }
{
    let entries = usize::from(read_u16(buf, place, e)?);
    let next = read_u32(buf, place + 2 + 12 * entries, e)? as usize;
    Ok(Ends { entries, next })
}

// Whether two full pages have the same geometry, as stored. A derived `==` would be no plainer: it would take a struct of these fields, and a
// function that fills it.
fn same_geometry(a: Directory, b: Directory) -> bool
    ensures { result ≡ same_geometry (numbers_of a) (numbers_of b) }
{
    a.width == b.width
        && a.height == b.height
        && a.samples == b.samples
        && a.bits == b.bits
        && a.sample_format == b.sample_format
        && a.compression == b.compression
        && a.is_planar() == b.is_planar()
}

// Whether the channels of a full page have the same bits: one value for all of them, or as many equal ones as there are channels.
#[tactic(auto, unfolding(lsm_format::specs::Answer::bind))]
fn even_bits(buf: &[u8], d: Directory, e: Endian) -> Result<(), Refusal>
    ensures { answer_of result ≡ Open.even_bits (option_map entry_of d.bits_values) (order_of e) buf.now (directory_of (order_of e) buf.now d) }
{
    let Some(values) = d.bits_values else {
        return Ok(());
    };
    if values.count == 1 {
        return Ok(());
    }
    if values.count != d.channels() {
        return Err(Refusal::UnevenBits);
    }
    all_equal(buf, values, d.bits, e)
}

// Whether a directory whose entries are all read can stand where it does: it has as many strip lengths as offsets, and a full page has the same
// bits for all its channels and agrees with the first one.
#[tactic(auto, unfolding(lsm_format::specs::Open::agrees, lsm_format::specs::Answer::bind), using(crate::proofs::Laws::lengths))]
pub fn agrees(buf: &[u8], first: Option<Directory>, d: Directory, e: Endian) -> Result<(), Refusal>
    ensures { answer_of result ≡ Open.agrees (order_of e) buf.now (option_map (directory_of (order_of e) buf.now) first) (directory_of (order_of e) buf.now d) }
{
    if d.offsets.count != d.counts.count {
        return Err(Refusal::Decode);
    }
    if is_reduced(d.new_subfile_type) {
        return Ok(());
    }
    even_bits(buf, d, e)?;
    let Some(page) = first else {
        return Ok(());
    };
    if !same_geometry(d, page) {
        return Err(Refusal::Unsupported); // geometry
    }
    if d.offsets.count != page.offsets.count {
        return Err(Refusal::Decode); // strip count
    }
    Ok(())
}
