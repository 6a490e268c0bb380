//! Points and positions.

use crate::expect::holds;
use markdown_nodes::unist::{Point, Position};

#[test]
fn a_position_goes_from_one_point_to_another(rt: HostRuntime) {
    let position = Position::new(1, 1, 0, 1, 3, 2);
    holds(&rt, position.start == Point::new(1, 1, 0));
    holds(&rt, position.end == Point::new(1, 3, 2));
}
