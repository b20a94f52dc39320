//! The files of a bundle and the built-in headers as pieces, and which of them a header means.
ghost use Rattle.std.specs.Prelude.{◌≡◌, Some, IfOk, map};
ghost use Rattle.std.specs.Option.{option_copied};
ghost use Rattle.std.specs.String.{string_bytes};
ghost use Rattle.hv_directives.specs.Values.{header_of};
ghost use Rattle.hv_plain.specs.gathering.Mentions as mentions;
ghost use Rattle.hv_plainpp.specs.Files as files;
ghost use Rattle.hv_plainpp.specs.Files.{File, built_in, file_in, found};
ghost use Rattle.hv_preproc.specs.working.Keys.{IsOfInitial};
ghost use Rattle.hv_preproc.specs.working.Pages.{ArePagesFor, IsPageFor};
ghost use Rattle.hv_preproc.specs.working.Parts.{ArePages, IsContentOf, IsFound, IsPageOf, page_at};
ghost use Rattle.hv_preproc.specs.working.Sources.{AreSources, IsSourceOf, cutting_of};

use crate::candidate::candidates;
use crate::source::{Cut, Source, Sources};
use hv_base::{Bundle, Memory};
use hv_directives::{Header, Piece, pieces};
use std::alloc::Global;

/// What a file is.
#[derive(Drop)]
pub(crate) enum Content<'a> {
    Pieces(Vec<Piece<'a>>),
    /// The comment at this offset isn't closed.
    OpenComment(u64),
}

impl<'a> Content<'a> {
    /// The pieces of what a file was cut into.
    fn new(alloc: Global, cut: &'a Cut) -> Result<Content<'a>, Memory>
        ensures { IfOk result (λ content. (file : File)
            → mentions.cut file.number file.bytes ≡ cutting_of cut.now
            → IsContentOf content file) }
    {
        match cut {
            Cut::Tokens(tokens) => Ok(Content::Pieces(pieces(alloc, tokens.as_slice())?)),
            Cut::OpenComment(offset) => Ok(Content::OpenComment(*offset)),
        }
    }
}

/// A file or built-in header.
#[derive(Drop)]
pub(crate) struct Page<'a> {
    pub(crate) number: u32,
    pub(crate) name: &'a str,
    pub(crate) content: Content<'a>,
}

impl<'a> Page<'a> {
    /// The pieces of a source.
    fn new(alloc: Global, source: &'a Source) -> Result<Page<'a>, Memory>
        ensures { IfOk result (λ page. (file : File) → IsSourceOf source.now file
            → ¬ IsOfInitial file.number → IsPageOf page file) }
    {
        Ok(Page {
            number: source.number,
            name: source.name.as_str(),
            content: Content::new(alloc, &source.cut)?,
        })
    }
}

/// The page of a source; `None` where the file is absent.
fn page_for<'a>(alloc: Global, source: &'a Option<Source>) -> Result<Option<Page<'a>>, Memory>
    ensures { IfOk result (λ page. IsPageFor source.now page) }
{
    match source {
        Some(source) => Ok(Some(Page::new(alloc, source)?)),
        None => Ok(None),
    }
}

/// The pages of the files of a bundle.
fn file_pages<'a>(
    alloc: Global,
    sources: &'a [Option<Source>],
) -> Result<Vec<Option<Page<'a>>>, Memory>
    ensures { IfOk result (λ pages. ArePagesFor sources.now pages.items) }
{
    let mut pages = Vec::new(alloc);
    for source in sources {
        pages.push(page_for(alloc, source)?)?;
    }
    Ok(pages)
}

/// The pages of the built-in headers.
fn header_pages<'a>(alloc: Global, sources: &'a [Source]) -> Result<Vec<Page<'a>>, Memory>
    ensures { IfOk result (λ pages. ArePagesFor (map Some sources.now) (map Some pages.items)) }
{
    let mut pages = Vec::new(alloc);
    for source in sources {
        pages.push(Page::new(alloc, source)?)?;
    }
    Ok(pages)
}

/// The files of a bundle that are there, and the built-in headers.
#[derive(Drop)]
pub(crate) struct Pages<'a> {
    bundle: &'a Bundle,
    /// By the files' numbers; `None` where a file is absent.
    files: Vec<Option<Page<'a>>>,
    /// By the rows of the table of headers.
    headers: Vec<Page<'a>>,
}

impl<'a> Pages<'a> {
    /// The pieces of all sources of a bundle.
    pub(crate) fn new(
        alloc: Global,
        bundle: &'a Bundle,
        sources: &'a Sources,
    ) -> Result<Pages<'a>, Memory>
        requires { AreSources bundle.now sources.now }
        ensures right { IfOk result (λ pages. ArePages pages) }
        ensures bundle { IfOk result (λ pages. pages.bundle.now ≡ bundle.now) }
    {
        Ok(Pages {
            bundle,
            files: file_pages(alloc, &sources.files)?,
            headers: header_pages(alloc, &sources.headers)?,
        })
    }

    /// The file of this number; `None` where it is absent.
    pub(crate) fn numbered(&self, number: u32) -> Option<&Page<'a>>
        ensures { option_copied result ≡ page_at self.now (Some number) }
    {
        match self.files.get(number as usize) {
            Some(Some(page)) => Some(page),
            _ => None,
        }
    }

    /// The file of this name; `None` where it is absent.
    fn named(&self, name: &str) -> Option<&Page<'a>>
        requires { ArePages self.now }
        ensures { IsFound (option_copied result) (file_in self.now.bundle.now name.now) }
    {
        match self.bundle.number_of(name) {
            Some(number) => self.numbered(number),
            None => None,
        }
    }

    /// The built-in header of this name; `None` where there is none.
    fn built_in(&self, name: &str) -> Option<&Page<'a>>
        requires { ArePages self.now }
        ensures { IsFound (option_copied result) (built_in name.now) }
    {
        for page in &self.headers {
            if page.name == name {
                return Some(page);
            }
        }
        None
    }

    /// The first of these candidates that is there, or else the built-in header of a name.
    fn first_there(&self, header: &str, names: &[String]) -> Option<&Page<'a>>
        requires { ArePages self.now }
        ensures { IsFound (option_copied result) (files.first_there self.now.bundle.now header.now
            (map string_bytes names.now)) }
    {
        for name in names {
            if let Some(page) = self.named(name.as_str()) {
                return Some(page);
            }
        }
        self.built_in(header)
    }

    /// The file that a header means in a file of this name (ISO/IEC 9899:1999, 6.10.2): the first
    /// of its candidates that is there, or else the built-in header of its name.
    pub(crate) fn find(
        &self,
        alloc: Global,
        file: &str,
        header: Header<'_>,
    ) -> Result<Option<&Page<'a>>, Memory>
        requires { ArePages self.now }
        ensures { IfOk result (λ page. IsFound (option_copied page)
            (found self.now.bundle.now file.now (header_of header.entry))) }
    {
        let names = candidates(alloc, self.bundle.dirs(), file, header)?;
        Ok(self.first_there(header.name, names.as_slice()))
    }
}
