// One count, as a colouring's days, a table's total, a line list's pairs or a file's length.
ghost use Rattle.graph.specs.Report.{report_of};
ghost use Rattle.c_answer.specs.Answer.{Told};

use graph::Refusal;

pub fn answer_count(answer: Result<usize, Refusal>, count: &mut usize) -> u32
    ensures told { Told (report_of answer) count.old result count.new }
{
    match answer {
        Ok(counted) => {
            *count = counted;
            0
        }
        Err(refusal) => refusal.number(),
    }
}
