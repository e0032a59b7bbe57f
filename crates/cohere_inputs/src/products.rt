//! The files by which the lines of a script multiply.

ghost use Rattle.std.specs.Prelude.{◌≡◌, ◌≤◌, ◌++◌, [], ◌∷◌, length, All, Some, None, MatchOption, IfSome, IfOk, IfErr, OnOk};
ghost use Rattle.scheme_io.specs.Count.{Rose};
ghost use Rattle.pair_colours.specs.Colouring.{PairColouring, IsRawColouring};
ghost use Rattle.script_text.specs.Script.{product_count};
ghost use Rattle.cohere_inputs.specs.Bad.{IsRelationFile, AreProductsOf};
ghost use Rattle.cohere_inputs.specs.Kind as kinds;
ghost use Rattle.cohere_inputs.specs.Needs.{relation_need, product_needs};
ghost use Rattle.cohere_inputs.specs.Products.{product_of};
ghost use Rattle.cohere_inputs.specs.Unread.{IsCause, IsUnreadAs, HaltsIn};

use crate::faults::{Halt, Unread};
use crate::files::relation_in;
use pair_colours::Colouring;
use scheme_io::Store;
use script_text::{Act, Line};
use std::alloc::Global;

// The name of the file by which the act multiplies.
fn product_of(act: &Act) -> Option<&str>
    ensures { MatchOption result (product_of act.now ≡ None) (λ name. product_of act.now ≡ Some name.now) }
{
    match act {
        Act::Direct { file } | Act::Wreath { file } => Some(file.as_str()),
        _ => None,
    }
}

// Loads the file of a product, and puts its relation behind the others.
fn add_product<S: Store>(
    alloc: Global,
    store: &mut S,
    name: &str,
    products: &mut Vec<Colouring>,
) -> Result<(), Unread>
    ensures same_files { S.files store.new ≡ S.files store.old }
    ensures later { S.faults store.old ≤ S.faults store.new }
    ensures added { OnOk result ((C : PairColouring) × (products.new.items ≡ products.old.items ++ C ∷ []) × IsRawColouring C
        × IfSome (S.files store.old) (λ files. IsRelationFile files name.now 1 C)) }
    ensures cause { IfErr result (λ why.
        IsCause (S.files store.old) (relation_need name.now 1) why (Rose (S.faults store.old) (S.faults store.new))) }
    ensures form { IfErr result (IsUnreadAs (kinds.Relation 1)) }
{
    let product = relation_in(alloc, store, name, 1)?;
    products.push(product)?;
    Ok(())
}

/// Loads the files of the products, in the order of the lines, and reads each at line 1.
pub(crate) fn products_in<'a, S: Store>(
    alloc: Global,
    store: &mut S,
    lines: &'a [Line],
) -> Result<Vec<Colouring>, Halt<'a>>
    ensures same_files { S.files store.new ≡ S.files store.old }
    ensures later { S.faults store.old ≤ S.faults store.new }
    ensures raw { IfOk result (λ products. All IsRawColouring products.items) }
    ensures one_each { IfOk result (λ products. length products.items ≡ product_count lines.now) }
    ensures read { IfOk result (λ products. IfSome (S.files store.old) (λ files. AreProductsOf files lines.now products.items)) }
    ensures halt { IfErr result (λ halt.
        HaltsIn (S.files store.old) (product_needs lines.now) halt.name.now halt.why (Rose (S.faults store.old) (S.faults store.new))) }
{
    let mut products = Vec::new(alloc);
    for line in lines {
        if let Some(name) = product_of(&line.act) {
            if let Err(why) = add_product(alloc, store, name, &mut products) {
                return Err(Halt { name, why });
            }
        }
    }
    Ok(products)
}
