//! The lines of the numbers of a table.

ghost use Rattle.std.specs.Prelude.{◌≡◌, ◌++◌, ◌∷◌, ◌*◌, ◌≤◌, [], OnOk, length};
ghost use Rattle.std.specs.List.{flat_map};
ghost use Rattle.array_tables.specs.Parameters.{diameter_of};
ghost use Rattle.neighbour_answers.specs.TableAnswer.{level_triples, nonzero_among, nonzero_triples, number_line, row_triples};

use array_tables::ArrayTable;
use std::alloc::AllocError;
use text_lines::Text;

// How many numbers of a table are not 0.
pub(crate) fn entry_count(table: &ArrayTable) -> u32
    ensures { result ≡ length (nonzero_triples table.now) }
{
    let mut count = 0;
    for k in 0..table.diameter() + 1 {
        count += count_of_level(table, k);
    }
    count
}

// How many q(i, j; k) are not 0 for this k.
fn count_of_level(table: &ArrayTable, k: u32) -> u32
    requires { k ≤ diameter_of table.now }
    ensures count { result ≡ length (nonzero_among table.now (level_triples table.now k)) }
    ensures few { result ≤ 1089 }
{
    let mut count = 0;
    for i in 0..table.diameter() + 1 {
        count += count_of_row(table, k, i);
    }
    count
}

// How many q(i, j; k) are not 0 for this k and i.
fn count_of_row(table: &ArrayTable, k: u32, i: u32) -> u32
    requires distance { k ≤ diameter_of table.now }
    requires left { i ≤ diameter_of table.now }
    ensures count { result ≡ length (nonzero_among table.now (row_triples table.now k i)) }
    ensures few { result ≤ 33 }
{
    let mut count = 0;
    for j in 0..table.diameter() + 1 {
        if table.value(i, j, k) != 0 {
            count += 1;
        }
    }
    count
}

// Puts the lines of all numbers that are not 0 at the end.
pub(crate) fn put_numbers(text: &mut Text, table: &ArrayTable) -> Result<(), AllocError>
    ensures { OnOk result (text.new ≡ text.old ++ flat_map (number_line table.now) (nonzero_triples table.now)) }
{
    for k in 0..table.diameter() + 1 {
        put_level(text, table, k)?;
    }
    Ok(())
}

// Puts those for this k.
fn put_level(text: &mut Text, table: &ArrayTable, k: u32) -> Result<(), AllocError>
    requires { k ≤ diameter_of table.now }
    ensures { OnOk result (text.new
        ≡ text.old ++ flat_map (number_line table.now) (nonzero_among table.now (level_triples table.now k))) }
{
    for i in 0..table.diameter() + 1 {
        put_row(text, table, k, i)?;
    }
    Ok(())
}

// Puts those for this k and i.
fn put_row(text: &mut Text, table: &ArrayTable, k: u32, i: u32) -> Result<(), AllocError>
    requires distance { k ≤ diameter_of table.now }
    requires left { i ≤ diameter_of table.now }
    ensures { OnOk result (text.new
        ≡ text.old ++ flat_map (number_line table.now) (nonzero_among table.now (row_triples table.now k i))) }
{
    for j in 0..table.diameter() + 1 {
        put_number(text, table, k, i, j)?;
    }
    Ok(())
}

// Puts the line of q(i, j; k), where it is not 0.
fn put_number(text: &mut Text, table: &ArrayTable, k: u32, i: u32, j: u32) -> Result<(), AllocError>
    requires distance { k ≤ diameter_of table.now }
    requires left { i ≤ diameter_of table.now }
    requires right { j ≤ diameter_of table.now }
    ensures { OnOk result (text.new
        ≡ text.old ++ flat_map (number_line table.now) (nonzero_among table.now ((k, i, j) ∷ []))) }
{
    let number = table.value(i, j, k);
    if number == 0 {
        return Ok(());
    }
    text.put_line(b"", &[i, j, k, number])
}
