// The answers of the calls as they are printed.
use days::LeadingPart;
use edge_walk::edge_at;
use file_fields::FileSummary;
use graph::{NodeIndex, Refusal};
use replay_input::Name;
use replay_output::{Number, Output};

// What a call counted, or why it refused.
pub(crate) fn put_count(
    output: &mut Output<impl Print>,
    name: Name,
    word: &str,
    answer: Result<usize, Refusal>,
) {
    match answer {
        Ok(count) => output.put_report(name, word, count),
        Err(refusal) => output.put_report(name, "refused", refusal.number() as usize),
    }
}

// A colouring's report and its slice.
pub fn put_colored<T: Number>(
    output: &mut Output<impl Print>,
    name: Name,
    answer: Result<usize, Refusal>,
    colors: &[T],
) {
    put_count(output, name, "days", answer);
    output.put_list(colors);
}

// What a walk meets from this place on, each step at the place that the one before gave, and the word that says the end.
pub(crate) fn put_walk(
    output: &mut Output<impl Print>,
    starts: &[u16],
    entries: &[u16],
    node: NodeIndex,
    place: usize,
) {
    let mut at = place;
    while let Some((edge, next)) = edge_at(starts, entries, node, at) {
        output.put(' ');
        output.put(edge.0);
        at = next;
    }
    output.put(" end");
}

// Which of two lists, and how many of its first numbers.
pub(crate) fn put_leading_part(output: &mut Output<impl Print>, part: LeadingPart) {
    let name = if part.second {
        "fewer_days second"
    } else {
        "fewer_days first"
    };
    output.put_report(name, "length", part.length);
}

pub(crate) fn put_file(output: &mut Output<impl Print>, answer: Result<FileSummary, Refusal>) {
    match answer {
        Ok(file) => {
            output.put("read_graph_file nodes ");
            output.put(file.nodes);
            output.put(" edges ");
            output.put(file.edges);
            output.put(" tags ");
            output.put_report(file.tags, "method", file.method_byte() as usize);
        }
        Err(refusal) => output.put_report("read_graph_file", "refused", refusal.number() as usize),
    }
}
