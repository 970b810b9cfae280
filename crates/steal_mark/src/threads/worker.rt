//! What the thread of one worker does.
ghost use Rattle.steal_mark.specs.Hinting.{IsHintSeat};
ghost use Rattle.steal_mark.specs.Team.{IsKept, IsReady};

use crate::shared::hints::{
    FIRST_REST, HintSeat, Hints, enter, is_over, leave, longer, rest, stop,
};
use crate::turn::marker::Marker;
use crate::turn::turn::{Gate, Turn};
use mark_core::Graph;
use std::sync::Wait;

// Takes turns until no worker is busy, or one was refused. It counts as busy from before its start
// until it finds nothing, and again once it finds a node. After a turn that finds nothing it rests,
// each time longer.
pub fn work<R: Wait, G: Gate>(
    rt: &R,
    mut marker: Marker,
    graph: &Graph,
    gate: &G,
    hints: &Hints,
    mut seat: HintSeat,
) -> Marker
    requires ready { IsReady graph.now marker }
    requires hints { IsHintSeat hints.now seat }
    ensures kept { IsKept marker result }
{
    let mut busy = true;
    let mut micros = FIRST_REST;
    for _ in rt.forever() {
        match marker.turn(graph, gate) {
            Ok(Turn::Scanned(_)) => {
                micros = FIRST_REST;
                if !busy {
                    busy = true;
                    enter(hints, &mut seat);
                }
            }
            Ok(Turn::Nothing) => {
                if busy {
                    busy = false;
                    leave(hints, &mut seat);
                }
                if is_over(hints, &mut seat) {
                    stop(hints, &mut seat);
                    break;
                }
                rest(rt, hints, &seat, micros);
                micros = longer(micros);
            }
            Err(_) => {
                stop(hints, &mut seat);
                break;
            }
        }
    }
    marker
}
