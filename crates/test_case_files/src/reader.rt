//! Reads a file of cases, line by line.

use crate::case::{Case, LinkCase, NamedFile, SentCase};
use crate::keyword::CaseKeyword;
use crate::pieces::{append, append_digits, is_piece};
use crate::words::{address, number, numbers, piece, size, status, words};
use anyhow::{Context, Result, bail};
use drm_links::{Address, LONGEST_DATAGRAM};
use std::alloc::Global;
use std::collections::BTreeMap;
use std::mem;

/// The byte list to which pieces are appended.
#[derive(Drop)]
enum PieceTarget {
    Absent,
    Let(String),
    Datagram,
    Word,
    File(String),
    Input,
    Out,
    Err,
}

/// The list to which datagrams are appended.
#[derive(Drop)]
enum CaseGroup {
    Absent,
    List(String),
    Link(LinkCase),
    Sent(Address),
}

/// What has a name, and the case that isn't whole yet.
#[derive(Drop)]
pub struct Reader {
    alloc: Global,
    lets: BTreeMap<String, Vec<u8>>,
    lists: BTreeMap<String, Vec<Vec<u8>>>,
    part: PieceTarget,
    bytes: Vec<u8>,
    group: CaseGroup,
    datagrams: Vec<Vec<u8>>,
    case: Option<Case>,
    last: Option<CaseKeyword>,
}

impl Reader {
    pub fn new(alloc: Global) -> Reader {
        Reader {
            alloc,
            lets: BTreeMap::new(alloc),
            lists: BTreeMap::new(alloc),
            part: PieceTarget::Absent,
            bytes: Vec::new(alloc),
            group: CaseGroup::Absent,
            datagrams: Vec::new(alloc),
            case: None,
            last: None,
        }
    }

    /// Reads the line with this number, and gives the case that ends before it. A line that isn't in its place, or says
    /// nothing, is an error, as is one in whose place a part of the case would have to end otherwise.
    pub fn read(&mut self, line: usize, text: &str) -> Result<Option<Case>> {
        if text.is_empty() || text.starts_with('#') {
            return Ok(None);
        }
        let (keyword, rest) = text.split_once(' ').unwrap_or((text, ""));
        if is_piece(keyword) {
            self.piece(keyword, rest)?;
            return Ok(None);
        }
        self.end_part()?;
        match keyword {
            "<" | ">" => self.datagram(rest)?,
            "of" => self.some_of(rest)?,
            "sends" | "send-fails" | "idle" | "failed" => self.answer(keyword, rest)?,
            _ => {
                self.end_group()?;
                return self.begin(line, keyword, rest);
            }
        }
        Ok(None)
    }

    /// Gives the last case.
    pub fn end(&mut self) -> Result<Option<Case>> {
        self.end_part()?;
        self.end_group()?;
        self.end_case()
    }

    fn end_case(&mut self) -> Result<Option<Case>> {
        self.last = None;
        let case = self.case.take();
        match &case {
            Some(case) if case.status.is_none() => bail!("{:?} has no status", case.name),
            Some(case) if case.is_prefix && case.status != Some(5) => {
                bail!("{:?}: only a write fault leaves a prefix", case.name)
            }
            _ => Ok(case),
        }
    }

    fn piece(&mut self, keyword: &str, rest: &str) -> Result<()> {
        if matches!(&self.part, PieceTarget::Absent) {
            bail!("a piece of nothing");
        }
        append(&mut self.bytes, &self.lets, keyword, rest)
    }

    fn end_part(&mut self) -> Result<()> {
        let bytes = mem::replace(&mut self.bytes, Vec::new(self.alloc));
        match mem::replace(&mut self.part, PieceTarget::Absent) {
            PieceTarget::Absent => Ok(()),
            PieceTarget::Let(name) => {
                self.lets.insert(name, bytes)?;
                Ok(())
            }
            PieceTarget::Datagram if bytes.len() > LONGEST_DATAGRAM => bail!(
                "a datagram is too long"
            ),
            PieceTarget::Datagram => Ok(self.datagrams.push(bytes)?),
            part => match &mut self.case {
                Some(case) => fill(case, part, bytes),
                None => bail!("no case has begun"),
            },
        }
    }

    fn datagram(&mut self, digits: &str) -> Result<()> {
        if matches!(&self.group, CaseGroup::Absent) {
            bail!("a datagram of no list");
        }
        self.part = PieceTarget::Datagram;
        append_digits(&mut self.bytes, digits)
    }

    fn some_of(&mut self, rest: &str) -> Result<()> {
        let (name, places) = rest.split_once(' ').unwrap_or((rest, ""));
        let Some(list) = self.lists.get(name) else {
            bail!("no list has the name {name:?}");
        };
        if matches!(&self.group, CaseGroup::Absent) {
            bail!("datagrams of no list");
        }
        let (first, last) = bounds(places, list.len())?;
        for (k, datagram) in list.iter().enumerate() {
            if first <= k && k < last {
                self.datagrams.push(datagram.to_vec(self.alloc)?)?;
            }
        }
        Ok(())
    }

    fn answer(&mut self, keyword: &str, rest: &str) -> Result<()> {
        let brought = self.datagrams.len() as u64;
        let CaseGroup::Link(link) = &mut self.group else {
            bail!("{keyword} stands below no link");
        };
        match keyword {
            "sends" => link.sends = size(rest)?,
            "send-fails" => link.failing_sends = numbers(self.alloc, rest)?,
            "idle" => {
                for _ in 0..number(rest)? {
                    let next = answers(link, brought);
                    link.idles.push(next)?;
                }
            }
            _ => {
                let next = answers(link, brought);
                link.fails.push(next)?;
            }
        }
        Ok(())
    }

    fn end_group(&mut self) -> Result<()> {
        let datagrams = mem::replace(&mut self.datagrams, Vec::new(self.alloc));
        match mem::replace(&mut self.group, CaseGroup::Absent) {
            CaseGroup::Absent => {}
            CaseGroup::List(name) => {
                self.lists.insert(name, datagrams)?;
            }
            CaseGroup::Link(link) => match &mut self.case {
                Some(case) if case.links.iter().any(|other| other.at == link.at) => {
                    bail!("two links stand at one address")
                }
                Some(case) => case.links.push(LinkCase { datagrams, ..link })?,
                None => bail!("no case has begun"),
            },
            CaseGroup::Sent(at) => match &mut self.case {
                Some(case) => case.sent.push(SentCase { at, datagrams })?,
                None => bail!("no case has begun"),
            },
        }
        Ok(())
    }

    fn begin(&mut self, line: usize, keyword: &str, rest: &str) -> Result<Option<Case>> {
        match keyword {
            "case" => {
                let ended = self.end_case()?;
                let name = String::from_str(self.alloc, rest)?;
                self.case = Some(Case::new(self.alloc, name, line));
                return Ok(ended);
            }
            "let" | "list" if self.case.is_some() => bail!("{keyword} stands behind a case"),
            "let" => self.part = PieceTarget::Let(String::from_str(self.alloc, rest)?),
            "list" => self.group = CaseGroup::List(String::from_str(self.alloc, rest)?),
            _ => match CaseKeyword::parse(keyword) {
                Some(keyword) if keyword.may_follow(self.last) => {
                    self.last = Some(keyword);
                    self.line(keyword, rest)?;
                }
                Some(_) => bail!("{keyword} stands behind a line that it has to stand before"),
                None => bail!("{keyword:?} begins no line"),
            },
        }
        Ok(None)
    }

    // A line of a case.
    fn line(&mut self, keyword: CaseKeyword, rest: &str) -> Result<()> {
        match keyword {
            CaseKeyword::Word => {
                self.part = PieceTarget::Word;
                self.bytes.extend_from_slice(rest.as_bytes())?;
            }
            CaseKeyword::File => self.part = PieceTarget::File(String::from_str(self.alloc, rest)?),
            CaseKeyword::Input => self.part = PieceTarget::Input,
            CaseKeyword::Out | CaseKeyword::OutPrefix => self.part = PieceTarget::Out,
            CaseKeyword::Err => self.part = PieceTarget::Err,
            CaseKeyword::Link => {
                self.group = CaseGroup::Link(LinkCase::new(self.alloc, address(rest)?));
            }
            CaseKeyword::Sent => self.group = CaseGroup::Sent(address(rest)?),
            _ => {}
        }
        match &mut self.case {
            Some(case) => set(self.alloc, case, keyword, rest),
            None => bail!("no case has begun"),
        }
    }
}

// How many answers of the link are named so far.
fn answers(link: &LinkCase, brought: u64) -> u64 {
    let others = link.idles.len().saturating_add(link.fails.len());
    brought.saturating_add(others as u64)
}

// From which place on, and before which one: all of a list of so many, or one, or some.
fn bounds(places: &str, count: usize) -> Result<(usize, usize)> {
    if places.is_empty() {
        return Ok((0, count));
    }
    let (first, last) = places.split_once(' ').unwrap_or((places, places));
    let (first, last) = (size(first)?, size(last)?);
    if last >= count || first > last {
        bail!("{places:?} are no places of a list of {count}");
    }
    Ok((first, last.saturating_add(1)))
}

fn fill(case: &mut Case, part: PieceTarget, bytes: Vec<u8>) -> Result<()> {
    match part {
        PieceTarget::Word => {
            let word = String::from_utf8(bytes)
                .ok()
                .context("a word that isn't UTF-8")?;
            case.words.push(word)?;
        }
        PieceTarget::File(name) => case.files.push(NamedFile { name, bytes })?,
        PieceTarget::Input => case.input.bytes = bytes,
        PieceTarget::Out => case.out.wanted = bytes,
        PieceTarget::Err => case.err.wanted = bytes,
        PieceTarget::Absent | PieceTarget::Let(_) | PieceTarget::Datagram => bail!(
            "no part of a case"
        ),
    }
    Ok(())
}

// What a line says that has no byte list behind it.
fn set(alloc: Global, case: &mut Case, keyword: CaseKeyword, rest: &str) -> Result<()> {
    match keyword {
        CaseKeyword::Words => case.words = words(alloc, rest)?,
        CaseKeyword::Status => case.status = Some(status(rest)?),
        CaseKeyword::OutPrefix => case.is_prefix = true,
        CaseKeyword::Differs => case.differences = String::from_str(alloc, rest)?,
        CaseKeyword::ShelfFails => case.failing_loads = numbers(alloc, rest)?,
        CaseKeyword::DockFails => case.failing_openings = numbers(alloc, rest)?,
        CaseKeyword::InputPiece => case.input.piece = piece(rest)?,
        CaseKeyword::InputFails => case.input.fails = numbers(alloc, rest)?,
        CaseKeyword::SinkRoom => case.out.room = size(rest)?,
        CaseKeyword::SinkPiece => case.out.piece = piece(rest)?,
        CaseKeyword::SinkFails => case.out.fails = numbers(alloc, rest)?,
        CaseKeyword::ErrRoom => case.err.room = size(rest)?,
        CaseKeyword::ErrPiece => case.err.piece = piece(rest)?,
        CaseKeyword::ErrFails => case.err.fails = numbers(alloc, rest)?,
        _ => {}
    }
    Ok(())
}
