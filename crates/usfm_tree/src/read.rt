//! The nodes under the root of a text's tree.

ghost use Rattle.std.specs.Prelude.{◌≡◌, IfOk};
ghost use Rattle.usfm_tree.specs.Reading.{tree_of};
ghost use Rattle.usfm_tree.specs.SheetViews.{styles_of};
ghost use Rattle.usfm_tree.specs.Views.{forest_of};

use crate::node::Node;
use crate::reader::Reader;
use crate::role::role_of;
use std::alloc::{AllocError, Global};
use sty_sheet::Sheet;
use usfm_token::TokenIter;

// All nodes under the root.
pub(crate) fn read_nodes<'a, 's>(
    alloc: Global,
    source: &'a str,
    sheet: &'s Sheet<'s>,
) -> Result<Vec<Node<'a>>, AllocError>
    ensures { IfOk result (λ kids. forest_of kids.items
        ≡ tree_of (styles_of sheet.now) source.now) }
{
    let mut reader = Reader {
        open_nodes: Vec::new(alloc),
        kids: Vec::new(alloc),
    };
    let mut tokens = TokenIter::new(source);
    loop {
        let at = tokens.rest();
        let start = source.len() - at.len();
        let token = match tokens.next() {
            None => break,
            Some(token) => token,
        };
        let role = role_of(sheet, token);
        if reader.unwind(role, at, tokens.rest())? {
            continue;
        }
        let after = reader.take(alloc, role, start, source.len(), at, tokens.rest())?;
        tokens = TokenIter::new(after);
    }
    let kids = reader.finish()?;
    Ok(kids)
}
