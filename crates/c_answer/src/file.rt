// The four numbers of a file, as C gets them.
ghost use Rattle.std.specs.Prelude.{◌≡◌};
ghost use Rattle.graph_file.specs.Report.{report_of_file};
ghost use Rattle.c_answer.specs.Answer.{Told};
ghost use Rattle.c_answer.specs.File.{report_of_numbers};

use file_fields::FileSummary;
use graph::Refusal;

// What reading a file reports; the method as its byte, 255 for none.
#[derive(Clone, Copy, PartialEq, Eq, Debug)]
pub struct FileNumbers {
    pub nodes: usize,
    pub edges: usize,
    pub tags: u8,
    pub method: u8,
}

// The same report in numbers.
pub fn numbers_of(answer: Result<FileSummary, Refusal>) -> Result<FileNumbers, Refusal>
    ensures report { report_of_numbers result ≡ report_of_file answer }
{
    match answer {
        Ok(file) => Ok(FileNumbers {
            nodes: file.nodes,
            edges: file.edges,
            tags: file.tags,
            method: file.method_byte(),
        }),
        Err(refusal) => Err(refusal),
    }
}

pub fn answer_file(
    answer: Result<FileNumbers, Refusal>,
    nodes: &mut usize,
    edges: &mut usize,
    tags: &mut usize,
    method: &mut usize,
) -> u32
    ensures told { Told (report_of_numbers answer) (nodes.old, edges.old, tags.old, method.old) result
        (nodes.new, edges.new, tags.new, method.new) }
{
    match answer {
        Ok(file) => {
            *nodes = file.nodes;
            *edges = file.edges;
            *tags = file.tags as usize;
            *method = file.method as usize;
            0
        }
        Err(refusal) => refusal.number(),
    }
}
