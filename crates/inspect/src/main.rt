// inspect: reads a heap image, prints what is on each page, and says whether it is lawful.
//
// The judgement is that of the crate `page_check`, the text that of `heap_report`; here files are read and lines written.

#![tactic(auto)]

use anyhow::anyhow;
use heap_report::{MAX_PAGES, PageReport, SizeFault, count_in_state, pages_in};
use page::{PAGE_SIZE, Page, State, standard_kinds};
use page_check::first_broken;
use std::{env, fmt, fs, io};

const USAGE: &str = "usage: inspect IMAGE
Prints the pages of a heap image (1 to 64 pages of 8192 bytes): header, line pointers, versions,
and whether each page is lawful or which rule it breaks first.";

// What the last line counts.
#[derive(Clone, Copy, Default)]
struct Totals {
    lawful: u32,
    unlawful: u32,
    normal: u32,
    redirect: u32,
    dead: u32,
    unused: u32,
}

fn add(total: &mut u32, more: u16) {
    *total = total.saturating_add(more.into());
}

impl Totals {
    fn add_page(&mut self, page: &Page, lawful: bool) {
        if lawful {
            add(&mut self.lawful, 1);
        } else {
            add(&mut self.unlawful, 1);
        }
        add(&mut self.normal, count_in_state(page, State::Normal));
        add(&mut self.redirect, count_in_state(page, State::Redirect));
        add(&mut self.dead, count_in_state(page, State::Dead));
        add(&mut self.unused, count_in_state(page, State::Unused));
    }
}

// Why a file is not read as a heap image.
#[derive(Drop)]
enum Fault {
    Unreadable(io::Error),
    NoFile,
    Size(SizeFault),
}

impl fmt::Display for Fault {
    fn fmt<W: fmt::Write>(&self, f: &mut fmt::Formatter<W>) -> fmt::Result {
        match self {
            Fault::Unreadable(error) => write!(f, "cannot be read: {error}"),
            Fault::NoFile => write!(f, "is not a file"),
            Fault::Size(size) => write!(f, "{size}"),
        }
    }
}

impl From<io::Error> for Fault {
    fn from(error: io::Error) -> Fault {
        Fault::Unreadable(error)
    }
}

impl From<SizeFault> for Fault {
    fn from(size: SizeFault) -> Fault {
        Fault::Size(size)
    }
}

fn pages_word(pages: u64) -> &'static str {
    if pages == 1 { "page" } else { "pages" }
}

fn print_pages(rt: &HostRuntime, image: &[u8]) -> io::Result<Totals> {
    let mut totals = Totals::default();
    let (pages, _) = image.as_chunks::<PAGE_SIZE>();
    for (block, page) in (0..MAX_PAGES as u32).zip(pages) {
        let broken = first_broken(standard_kinds(), page, block);
        totals.add_page(page, broken.is_none());
        let report = PageReport {
            page,
            block,
            broken,
        };
        print!(rt; "{report}")?;
    }
    Ok(totals)
}

fn print_totals(rt: &HostRuntime, pages: u64, totals: Totals) -> io::Result<()> {
    let word = pages_word(pages);
    let Totals {
        lawful,
        unlawful,
        normal,
        redirect,
        dead,
        unused,
    } = totals;
    let all = normal
        .saturating_add(redirect)
        .saturating_add(dead)
        .saturating_add(unused);
    print!(rt; "{pages} {word}: {lawful} lawful, {unlawful} unlawful; ")?;
    println!(rt;
        "{all} line pointers: {normal} normal, {redirect} redirect, {dead} dead, {unused} unused"
    )
}

// Reads the file, unless its size already says that it is no heap image.
fn read_image(rt: &HostRuntime, path: &str) -> Result<(u64, Vec<u8>), Fault> {
    let about = fs::metadata(rt, path)?;
    if !about.is_file() {
        return Err(Fault::NoFile);
    }
    pages_in(about.len())?;
    let image = fs::read(rt, path)?;
    let pages = pages_in(image.len() as u64)?;
    Ok((pages, image))
}

fn inspect_file(rt: &HostRuntime, path: &str) -> anyhow::Result<()> {
    let (pages, image) = read_image(rt, path).map_err(|fault| {
        let _ = eprintln!(rt; "inspect: {path}: {fault}");
        anyhow!("no heap image")
    })?;
    let word = pages_word(pages);
    println!(rt; "{path}: {pages} {word}")?;
    let totals = print_pages(rt, image.as_slice())?;
    print_totals(rt, pages, totals)?;
    Ok(())
}

fn main(rt: HostRuntime) -> anyhow::Result<()> {
    let mut args = env::args(&rt)?;
    let _program = args.next();
    let Some(path) = args.next() else {
        eprintln!(rt; "{USAGE}")?;
        return Err(anyhow!("no image named"));
    };
    if path.as_str() == "--help" {
        println!(rt; "{USAGE}")?;
        return Ok(());
    }
    if args.next().is_some() {
        eprintln!(rt; "{USAGE}")?;
        return Err(anyhow!("one image at a time"));
    }
    inspect_file(&rt, path.as_str())
}
