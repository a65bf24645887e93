//! The list.

ghost use Rattle.std.specs.Prelude.{◌≡◌, ◌++◌, ◌<◌, ◌≤◌, length, slice_index_or, slice_set, IfOk, OnOk, OnErr};
ghost use Rattle.paged_list.specs.Pages.{IsFormerPageOf, with_former_page};

use crate::shared::{CopyItems, SharedItems};
use std::alloc::{AllocError, Global};
use std::marker::Model;

/// How many items a page has: each page but the last has just so many, and the last no more.
const ITEMS_OF_PAGE: usize = 16;

/// A list in pages, which its copies share. Contracts see it as the list of its items.
#[derive(Drop)]
pub struct PagedList<T> {
    pages: Vec<SharedItems<T>>,
}

impl<T> Model for PagedList<T> {
    ghost use Rattle.std.specs.Prelude.{List as Items};
    ghost use Rattle.paged_list.specs.Pages.{ArePages, joined};

    ghost Value = { Items T };

    ghost view = { λ l. joined l.pages.items };

    ghost invariant = { λ l. ArePages l.pages.items };
}

/// A page of a list as it stood before a change: `PagedList::put_back` puts it back. Contracts see its number, from 0,
/// and its items.
#[derive(Drop)]
pub struct FormerPage<T> {
    number: usize,
    items: SharedItems<T>,
}

impl<T> Model for FormerPage<T> {
    ghost use Rattle.paged_list.specs.Pages.{PageItems};

    ghost Value = { PageItems T };

    ghost view = { λ p. record { number = p.number; items = p.items } };
}

impl<T: CopyItems> PagedList<T> {
    /// A list of copies of these items. The only error is out of memory; that too many share an item already is told as
    /// that.
    pub fn of(alloc: Global, items: &[T]) -> Result<PagedList<T>, AllocError>
        ensures { IfOk result (λ list. list ≡ items.now) }
    {
        let mut pages = Vec::with_capacity(alloc, items.len().div_ceil(ITEMS_OF_PAGE))?;
        let mut left = items;
        while left.len() > 0 {
            let (part, later) = first_page(left);
            let page = T::copies(alloc, part)?;
            pages.push(SharedItems::of(alloc, page)?)?;
            left = later;
        }
        Ok(PagedList { pages })
    }

    /// An equal list, which shares all pages. The only error is out of memory; that too many share a page already is told
    /// as that.
    pub fn share(&self, alloc: Global) -> Result<PagedList<T>, AllocError>
        ensures { IfOk result (λ shared. shared ≡ self.now) }
    {
        let pages = SharedItems::copies(alloc, self.pages.as_slice())?;
        Ok(PagedList { pages })
    }

    /// Copies of all items, in order. The only error is out of memory, told where too many share an item, too.
    pub fn to_vec(&self, alloc: Global) -> Result<Vec<T>, AllocError>
        ensures { IfOk result (λ items. items.items ≡ self.now) }
    {
        let mut items = Vec::new(alloc);
        for page in &self.pages {
            let mut copies = T::copies(alloc, page.as_slice())?;
            items.append(&mut copies)?;
        }
        Ok(items)
    }

    /// The item at a place, from 0 and below the list's length. A place is a `u32`, so items from 4,294,967,296 on
    /// can't be asked for.
    pub fn at(&self, place: u32) -> &T
        requires { place < length self.now }
        ensures { (d : T) → result.now ≡ slice_index_or self.now place d }
    {
        let page = &self.pages[place as usize / ITEMS_OF_PAGE];
        &page.as_slice()[place as usize % ITEMS_OF_PAGE]
    }

    /// Puts another item at a place, from 0 and below the list's length, and hands out the page that stood, for
    /// `put_back`. All else stays. It makes one page anew. The only error is out of memory, told where too many share an
    /// item of the page, too; after it nothing has changed but that the item is given up.
    pub fn replace(
        &mut self,
        alloc: Global,
        place: u32,
        item: T,
    ) -> Result<FormerPage<T>, AllocError>
        requires { place < length self.old }
        ensures ok { OnOk result (self.new ≡ slice_set self.old place item) }
        ensures back { IfOk result (λ page. with_former_page self.new page ≡ self.old) }
        ensures place { IfOk result (λ page. IsFormerPageOf self.new page) }
        ensures err { OnErr result (self.new ≡ self.old) }
    {
        let number = place as usize / ITEMS_OF_PAGE;
        let mut page = T::copies(alloc, self.pages[number].as_slice())?;
        page[place as usize % ITEMS_OF_PAGE] = item;
        let page = SharedItems::of(alloc, page)?;
        let items = std::mem::replace(&mut self.pages[number], page);
        Ok(FormerPage { number, items })
    }

    /// Puts a page in its place again. The list has a page of that number and size, as it has right after the change that
    /// handed it out. It takes no memory.
    pub fn put_back(&mut self, page: FormerPage<T>)
        requires { IsFormerPageOf self.old page }
        ensures { self.new ≡ with_former_page self.old page }
    {
        self.pages[page.number] = page.items;
    }
}

/// The items of the first page, as many as a page has or all that there are, and those after them.
fn first_page<T>(items: &[T]) -> (&[T], &[T])
    ensures items { result.0.now ++ result.1.now ≡ items.now }
    ensures few { length result.0.now ≤ 16 }
    ensures full { 0 < length result.1.now → length result.0.now ≡ 16 }
    ensures some { 0 < length items.now → 0 < length result.0.now }
{
    let count = items.len().min(ITEMS_OF_PAGE);
    (&items[..count], &items[count..])
}
