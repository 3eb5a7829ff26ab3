//! The declarations of packages, and the use clauses that are open.
ghost use Rattle.std.specs.Prelude.{ℕ, ◌≡◌, [], ◌∷◌, ◌++◌, ◌<◌, ◌≤◌, ◌+◌, ◌-◌, Bool, List, if◌then◌else◌, not, is_some, length, take, get_or, map, filter, IfOk, OnOk, OnErr};
ghost use Rattle.use_table.specs.Uses.{Known, times, is_used, member_of, shows, shown_if, shown_of, visible_by_use, with_member, only};

use name_keys::KeyMap;
use spark_base::NoMemory;
use std::alloc::Global;
use std::marker::Model;

/// A declaration of a package: what a name denotes by it, and whether it stands in the visible part.
#[derive(Clone, Copy, Debug)]
pub struct Member<T> {
    pub shown: T,
    pub is_visible: bool,
}

/// By the number of a name, from 0, the declarations of it in packages; and the packages that open use clauses name, the
/// outermost clause first.
///
/// The numbers of names and of packages are to be dense. A call takes constant time then, amortized, but for two: `find`
/// goes over the packages that declare the name, up to the second that it shows; `close_uses` takes one step for each
/// clause that it ends.
#[derive(Drop)]
pub struct UseTable<T> {
    /// By name, from the number of a package to what it declares.
    named: Vec<KeyMap<Member<T>>>,
    uses: Vec<usize>,
    /// By package, how many of the use clauses name it.
    counts: Vec<usize>,
}

impl<T> Model for UseTable<T> {
    ghost use Rattle.std.specs.Prelude.{ℕ, ◌≡◌, get_or};
    ghost use Rattle.use_table.specs.Uses.{Known, times};

    ghost Value = { Known T };

    ghost view = { λ t. record { named = t.named.items; uses = t.uses.items } };

    ghost invariant = { λ t. (p : ℕ) → get_or t.counts.items p 0 ≡ times p t.uses.items };
}

/// Has a place for a package.
fn make_room(counts: &mut Vec<usize>, number: usize) -> Result<(), NoMemory>
    ensures same { (k : ℕ) → get_or counts.new.items k 0 ≡ get_or counts.old.items k 0 }
    ensures room { OnOk result (number < length counts.new.items) }
{
    while counts.len() <= number {
        counts.push(0)?;
    }
    Ok(())
}

/// Has a place for a name.
fn make_rows<T: Copy>(
    alloc: Global,
    rows: &mut Vec<KeyMap<Member<T>>>,
    number: usize,
) -> Result<(), NoMemory>
    ensures same { (k : ℕ) → get_or rows.new.items k [] ≡ get_or rows.old.items k [] }
    ensures room { OnOk result (number < length rows.new.items) }
{
    while rows.len() <= number {
        rows.push(KeyMap::new(alloc))?;
    }
    Ok(())
}

/// Whether a use clause makes a member of a package visible.
fn shows<T: Copy>(counts: &[usize], home: usize, member: Member<T>) -> bool
    ensures { (uses : List ℕ) → ((p : ℕ) → get_or counts.now p 0 ≡ times p uses) → result ≡ shows uses (home, member) }
{
    member.is_visible && home < counts.len() && counts[home] > 0
}

/// What a member shows, if a use clause makes it visible.
fn shown_if<T: Copy>(counts: &[usize], member: Option<(usize, Member<T>)>) -> Option<T>
    ensures { (uses : List ℕ) → ((p : ℕ) → get_or counts.now p 0 ≡ times p uses) → result ≡ shown_if uses member }
{
    match member {
        None => None,
        Some((home, member)) => {
            if shows(counts, home, member) {
                Some(member.shown)
            } else {
                None
            }
        }
    }
}

/// What is the only one of these that a package shows that is used.
fn only_shown<T: Copy>(members: &KeyMap<Member<T>>, counts: &[usize]) -> Option<T>
    ensures { (uses : List ℕ) → ((p : ℕ) → get_or counts.now p 0 ≡ times p uses) → result ≡ only (map shown_of (filter (shows uses) members.now)) }
{
    let mut found = None;
    for place in 0..members.len() {
        match shown_if(counts, members.at(place)) {
            None => (),
            Some(shown) => {
                if found.is_some() {
                    return None;
                }
                found = Some(shown);
            }
        }
    }
    found
}

impl<T: Copy> UseTable<T> {
    /// No declarations, and no use clauses.
    pub fn new(alloc: Global) -> Self
        ensures named { result.named ≡ [] }
        ensures uses { result.uses ≡ [] }
    {
        UseTable {
            named: Vec::new(alloc),
            uses: Vec::new(alloc),
            counts: Vec::new(alloc),
        }
    }

    /// What use clauses make visible of a name: the only declaration of it in the visible parts of the packages that
    /// open clauses name. Two of the same name hide each other; a package that two clauses name counts once.
    pub fn find(&self, key: usize) -> Option<T>
        ensures { result ≡ visible_by_use self.now key }
    {
        if key < self.named.len() {
            only_shown(&self.named[key], self.counts.as_slice())
        } else {
            None
        }
    }

    /// What a package declares by a name, if it declares it.
    pub fn member(&self, home: usize, key: usize) -> Option<Member<T>>
        ensures { result ≡ member_of self.now home key }
    {
        if key < self.named.len() {
            self.named[key].find(home)
        } else {
            None
        }
    }

    /// The count of the open use clauses. A region that opens now is ended by `close_uses` with it.
    pub fn open_uses(&self) -> usize
        ensures { result ≡ length self.now.uses }
    {
        self.uses.len()
    }

    /// Declares a name in a package, unless it declares it already: false says so. For want of memory nothing is declared.
    pub fn declare(
        &mut self,
        alloc: Global,
        home: usize,
        key: usize,
        member: Member<T>,
    ) -> Result<bool, NoMemory>
        ensures known { IfOk result (λ added. added ≡ not (is_some (member_of self.old home key))) }
        ensures ok { IfOk result (λ added. (k : ℕ) → get_or self.new.named k [] ≡ (if added then with_member home key member k (get_or self.old.named k []) else get_or self.old.named k [])) }
        ensures err { OnErr result ((k : ℕ) → get_or self.new.named k [] ≡ get_or self.old.named k []) }
        ensures uses { self.new.uses ≡ self.old.uses }
    {
        make_rows(alloc, &mut self.named, key)?;
        self.named[key].add(home, member)
    }

    /// Opens a use clause that names a package; for want of memory the clauses stay as they were.
    pub fn open_use(&mut self, used: usize) -> Result<(), NoMemory>
        ensures named { self.new.named ≡ self.old.named }
        ensures ok { OnOk result (self.new.uses ≡ self.old.uses ++ used ∷ []) }
        ensures err { OnErr result (self.new.uses ≡ self.old.uses) }
    {
        make_room(&mut self.counts, used)?;
        self.uses.push(used)?;
        self.counts[used] += 1;
        Ok(())
    }

    /// Ends the last use clause.
    fn close_last(&mut self)
        requires { 0 < length self.old.uses }
        ensures named { self.new.named ≡ self.old.named }
        ensures uses { self.new.uses ≡ take (length self.old.uses - 1) self.old.uses }
    {
        if let Some(used) = self.uses.pop() {
            self.counts[used] -= 1;
        }
    }

    /// Ends the use clauses that were opened when so many were open.
    pub fn close_uses(&mut self, count: usize)
        ensures named { self.new.named ≡ self.old.named }
        ensures uses { self.new.uses ≡ take count self.old.uses }
    {
        while self.uses.len() > count {
            self.close_last();
        }
    }
}
