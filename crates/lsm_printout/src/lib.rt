// What is printed of a file.
#![tactic(auto)]

mod channels;
mod lines;
mod page;
mod sizes;

ghost use Rattle.std.specs.Prelude.{◌≡◌, length, IfOk, OnOk};
ghost use Rattle.std.specs.Io.KnownBytes.{Appends};
ghost use Rattle.lsm_format.specs.Printout.{text, head_lines, accepted_lines, channels_of, printout};
ghost use Rattle.lsm_description.specs.Code.{description_of};
ghost use Rattle.lsm_printout.specs.Put.{put};

use crate::page::Page;
use lsm_description::Description;
use lsm_reader::open::open_file;
use std::io;
use std::io::Write;

// The longest file that is listed.
const MOST: usize = 65_536;

impl<const N: usize> Page<N> {
    // The lines up to the number of scenes. A kind's number is its place in the enum.
    #[tactic(auto, using(crate::proofs::TextLines::head), unfolding(lsm_format::specs::Printout::kind_line, lsm_format::specs::Printout::scenes_line, lsm_format::specs::Printout::numbers_text, lsm_format::specs::Printout::text))]
    fn head(&mut self, d: Description)
        ensures { self.new ≡ put N self.old (text (head_lines (description_of d))) }
    {
        self.bytes(b"accepted\n");
        self.line(b"dims", &[d.dims.t, d.dims.c, d.dims.z, d.dims.y, d.dims.x]);
        self.line(b"kind", &[d.dtype as usize]);
        self.pixel(d.calibration);
        self.line(b"scenes", &[d.layout.scenes]);
    }

    // The lines of a file that opens.
    #[tactic(auto, using(crate::proofs::TextLines::accepted), unfolding(lsm_format::specs::Printout::channels_line, lsm_format::specs::Printout::numbers_text, lsm_format::specs::Printout::text))]
    fn accepted(&mut self, buf: &[u8], d: Description)
        ensures { self.new ≡ put N self.old (text (accepted_lines (description_of d) (channels_of buf.now (description_of d)))) }
    {
        self.head(d);
        self.scenes(d.layout.scenes);
        self.line(b"channels", &[d.dims.c]);
        self.channels(buf, d);
        self.notes(d.calibration);
    }

    // A file's printout.
    #[tactic(auto, using(crate::proofs::Whole::listed))]
    fn list(&mut self, buf: &[u8])
        ensures { self.new ≡ put N self.old (printout buf.now) }
    {
        if MOST < buf.len() {
            return self.bytes(b"too long\n");
        }
        let mut table = [0usize; 4096];
        match open_file(buf, &mut table) {
            Ok(opened) => self.accepted(buf, opened.description),
            Err(refusal) => self.refused(refusal),
        }
    }
}

// Writes a text, and nothing else; answers its length.
fn write_printout<W: Write>(out: &mut W, text: &[u8]) -> io::Result<usize>
    ensures value { IfOk result (λ n. n ≡ length text.now) }
    ensures written { OnOk result (Appends (W.contents out.old) (W.contents out.new) text.now) }
{
    out.write_all(text)?;
    Ok(text.len())
}

// Lists a file and writes its printout, and nothing else; answers its length. Every printout has room on the page.
#[tactic(auto, using(crate::proofs::Whole::room))]
pub fn print<W: Write>(out: &mut W, buf: &[u8]) -> io::Result<usize>
    ensures value { IfOk result (λ n. n ≡ length (printout buf.now)) }
    ensures written { OnOk result (Appends (W.contents out.old) (W.contents out.new) (printout buf.now)) }
{
    let mut page = Page::<1048576>::new();
    page.list(buf);
    write_printout(out, page.as_slice())
}
