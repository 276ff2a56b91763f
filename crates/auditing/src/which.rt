// Which section breaks a rule on sections: for a person's sake, after the rule's name. Of the image's words nothing is assumed.
ghost use Rattle.std.specs.Prelude.{◌≤◌};

use faults::Rule;
use image::Section;
use image::sections::{are_apart, section_sound};
use image::table::section;
use std::io;

pub(crate) fn tell(rt: &impl Print, r: Option<Rule>, im: &[u32], bytes: usize) -> io::Result<()> {
    if im.len() < 6 {
        return Ok(());
    }
    if 64 < im[2] {
        return Ok(());
    }
    let n = im[2] as usize;
    match r {
        Some(Rule::Sections) => tell_one(rt, im, n, |s| !section_sound(s)),
        Some(Rule::Data) => tell_one(rt, im, n, |s| bytes < s.place as usize + s.length as usize),
        Some(Rule::ElfNumbers) => tell_two(rt, im, n, |s, t| s.elf == t.elf),
        Some(Rule::Overlaps) => tell_two(rt, im, n, |s, t| !are_apart(s, t)),
        _ => Ok(()),
    }
}

// The first section that is off by itself.
fn tell_one<F: Fn(Section) -> bool>(
    rt: &impl Print,
    im: &[u32],
    n: usize,
    is_off: F,
) -> io::Result<()>
    requires few { n ≤ 64 }
    requires callable { F.IsAlwaysCallable is_off }
{
    for i in 0..n {
        if im.len() <= i * 6 + 11 {
            return Ok(());
        }
        if is_off(section(im, i)) {
            return print!(rt; ": section {i}");
        }
    }
    Ok(())
}

// The first section that clashes with one before it, and that one.
fn tell_two<F: Fn(Section, Section) -> bool>(
    rt: &impl Print,
    im: &[u32],
    n: usize,
    do_clash: F,
) -> io::Result<()>
    requires few { n ≤ 64 }
    requires callable { F.IsAlwaysCallable do_clash }
{
    for i in 0..n {
        if im.len() <= i * 6 + 11 {
            return Ok(());
        }
        let t = section(im, i);
        for j in 0..i {
            if do_clash(section(im, j), t) {
                return print!(rt; ": sections {j} and {i}");
            }
        }
    }
    Ok(())
}
