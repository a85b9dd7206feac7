//! The commands that are answered by one line.
ghost use Rattle.std.specs.Prelude.{◌≡◌, ◌<◌, length};
ghost use Rattle.meter_board.specs.Causes.{Rose};
ghost use Rattle.meter_cli.specs.Answer.{AnswerLeaves, IsAnswer};
ghost use Rattle.command_words.specs.Command.{IsQuery};
ghost use Rattle.meter_cli.specs.Ends.{EndsLine};

use crate::generated::gen_line;
use crate::puts::put_line;
use crate::status::Status;
use answer_lines::{LINE_ROOM, calc_line, coef_line, flow_line, pair_line, temp_line, water_line};
use arrayvec::ArrayString;
use command_words::Query;
use meter_board::Board;

/// Puts the line that answers a command.
pub fn answer<B: Board>(board: &mut B, query: Query) -> Status
    requires { IsQuery query }
    ensures leaves { B.tells → AnswerLeaves query (B.trace board.old) (B.trace board.new) result }
    ensures memory_untouched { B.memory_calls board.new ≡ B.memory_calls board.old }
    ensures write { result ≡ Status.Write → Rose (B.faults board.old).output (B.faults board.new).output }
    ensures kind { EndsLine result }
{
    let line = line_of(query);
    put_line(board, line.as_str().as_bytes())
}

fn line_of(query: Query) -> ArrayString<LINE_ROOM>
    requires { IsQuery query }
    ensures text { IsAnswer query result.bytes }
    ensures some { 0 < length result.bytes }
{
    match query {
        Query::Temp(sample) => temp_line(sample),
        Query::Water(state) => water_line(state),
        Query::Coef(k) => coef_line(k),
        Query::BenchCalc(test) => calc_line(test),
        Query::BenchPair(test) => pair_line(test),
        Query::BenchFlow(test) => flow_line(test),
        Query::Gen(load) => gen_line(load),
    }
}
