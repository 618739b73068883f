//! Jobs that several tests plan. Lines end in a semicolon.

/// A product of matrices of 2 by 2 on one node.
pub const ONE_NODE: &str =
    "machine 1;tensor A 2x2;tensor B 2x2;tensor C 2x2;stmt A(i,j) = B(i,k) * C(k,j);end";

/// A product of matrices of 4 by 4 on 2 by 2 nodes, with k in two tiles.
pub const FOUR_NODES: &str = "\
machine 2x2;tensor A 4x4;tensor B 4x4;tensor C 4x4;place A xy -> xy;place B xy -> xy;place C xy -> xy;\
stmt A(i,j) = B(i,k) * C(k,j);divide i io ii 2;divide j jo ji 2;reorder io jo ii ji;split k ko ki 2;reorder ko ii ji;\
distribute io jo;communicate jo A;communicate ko B C;end";

/// Cannon's product of matrices of 3 by 3.
pub const CANNON_3: &str = "\
machine 3x3;tensor A 3x3;tensor B 3x3;tensor C 3x3;place A xy -> xy;place B xy -> xy;place C xy -> xy;\
stmt A(i,j) = B(i,k) * C(k,j);divide i io ii 3;divide j jo ji 3;reorder io jo ii ji;divide k ko ki 3;reorder ko ii ji;\
rotate ko io jo kos;distribute io jo;communicate jo A;communicate kos B C;end";

/// Cannon's product of matrices of 4 by 4 on 2 by 2 nodes.
pub const CANNON_2: &str = "\
machine 2x2;tensor A 4x4;tensor B 4x4;tensor C 4x4;place A xy -> xy;place B xy -> xy;place C xy -> xy;\
stmt A(i,j) = B(i,k) * C(k,j);divide i io ii 2;divide j jo ji 2;reorder io jo ii ji;divide k ko ki 2;reorder ko ii ji;\
rotate ko io jo kos;distribute io jo;communicate jo A;communicate kos B C;end";

/// Johnson's product of matrices of 2 by 2, all of them at home on the first node.
pub const JOHNSON: &str = "\
machine 2x2x2;tensor A 2x2;tensor B 2x2;tensor C 2x2;stmt A(i,j) = B(i,k) * C(k,j);divide i io ii 2;divide j jo ji 2;\
divide k ko ki 2;reorder io jo ko ii ji ki;distribute io jo ko;end";

/// A vector of five on four nodes, the last of which has none of it.
pub const UNEQUAL: &str = "\
machine 4;tensor a 5;tensor b 5;place a x -> x;place b x -> x;stmt a(i) = b(i) + 10;divide i io ii 4;distribute io;end";

/// Two statements, the second of which reads what the first one makes.
pub const TWO_STATEMENTS: &str =
    "machine 1;tensor a 2;tensor b 2;tensor c 2;stmt a(i) = b(i);end;stmt c(i) = a(i);end";
