//! Answers that show a graph of classes.

ghost use Rattle.std.specs.Prelude.{◌≡◌, IfOk};
ghost use Rattle.report_text.specs.Graphs.{format_of, graph_line};

use pair_colours::NoMemory;
use std::alloc::Global;
use text_lines::Text;

/// The format of a graph's text, told by the first word of the answer.
#[derive(Clone, Copy, Debug, PartialEq, Eq)]
pub enum GraphNote {
    /// A graph, in McKay's graph6 format.
    Graph6,
    /// A digraph, in McKay's digraph6 format.
    Digraph6,
}

impl GraphNote {
    // The name of the format.
    fn name(self) -> &'static [u8]
        ensures { result.now ≡ format_of self }
    {
        match self {
            GraphNote::Graph6 => b"graph6",
            GraphNote::Digraph6 => b"digraph6",
        }
    }
}

/// The answer that shows a graph: `text` is the graph's text in the format, without a line end.
pub fn graph_text(alloc: Global, form: GraphNote, text: &[u8]) -> Result<Vec<u8>, NoMemory>
    ensures { IfOk result (λ answer. answer.items ≡ graph_line form text.now) }
{
    let mut answer = Text::new(alloc);
    answer.put(form.name())?;
    answer.put(b" ")?;
    answer.put(text)?;
    answer.put(b"\n")?;
    Ok(answer.into_bytes())
}
