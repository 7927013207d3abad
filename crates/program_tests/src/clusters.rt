// Rows of command lines of `serve`: which order each is, or the status of its fault.
use crate::order::are_read;

// Command lines of a cluster that serves. Each option comes first and last once, and the five come in many orders.
const CLUSTERS: &[(&str, &str)] = &[
    (
        "serve --nodes 3 --port 9000 --key 7",
        "serve 3 9000 7 - realm1",
    ),
    (
        "serve --nodes 3 --port 9000 --key 7 --dir data --realm a.b",
        "serve 3 9000 7 data a.b",
    ),
    (
        "serve --realm a.b --dir data --key 7 --port 9000 --nodes 3",
        "serve 3 9000 7 data a.b",
    ),
    (
        "serve --key 7 --realm a.b --nodes 3 --dir data --port 9000",
        "serve 3 9000 7 data a.b",
    ),
    (
        "serve --port 9000 --dir data --realm a.b --nodes 3 --key 7",
        "serve 3 9000 7 data a.b",
    ),
    (
        "serve --dir data --nodes 3 --key 7 --realm a.b --port 9000",
        "serve 3 9000 7 data a.b",
    ),
    (
        "serve --nodes 3 --realm a.b --port 9000 --key 7 --dir data",
        "serve 3 9000 7 data a.b",
    ),
    (
        "serve --key 0 --nodes 7 --port 1024",
        "serve 7 1024 0 - realm1",
    ),
    (
        "serve --nodes=4 --port=65529 --key=18446744073709551615 --dir=./d-e",
        "serve 4 65529 18446744073709551615 ./d-e realm1",
    ),
    (
        "serve --nodes 03 --port 09000 --key 007 --realm=a",
        "serve 3 9000 7 - a",
    ),
    ("serve", "2"),
    ("serve --port 9000 --key 7", "2"),
    ("serve --nodes 3 --key 7", "2"),
    ("serve --nodes 3 --port 9000", "2"),
    ("serve --nodes --port 9000 --key 7", "2"),
    ("serve --nodes 3 --port --key 7", "2"),
    ("serve --nodes 3 --port 9000 --key", "2"),
    ("serve --nodes 3 --port 9000 --key 7 --dir", "2"),
    ("serve --nodes 3 --port 9000 --key 7 --realm", "2"),
    ("serve --nodes 3 --port 9000 --key 7 --nodes 3", "2"),
    ("serve --nodes 3 --port 9000 --key 7 --port 9000", "2"),
    ("serve --nodes 3 --port 9000 --key 7 --key 7", "2"),
    (
        "serve --nodes 3 --port 9000 --key 7 --dir data --dir data",
        "2",
    ),
    (
        "serve --nodes 3 --port 9000 --key 7 --realm a --realm a",
        "2",
    ),
    ("serve --nodes 2 --port 9000 --key 7", "2"),
    ("serve --nodes 8 --port 9000 --key 7", "2"),
    ("serve --nodes three --port 9000 --key 7", "2"),
    ("serve --nodes 3 --port 1023 --key 7", "2"),
    ("serve --nodes 3 --port 65530 --key 7", "2"),
    ("serve --nodes 3 --port 74536 --key 7", "2"),
    ("serve --nodes 3 --port 18446744073709560616 --key 7", "2"),
    ("serve --nodes 3 --port +9000 --key 7", "2"),
    ("serve --nodes 3 --port -9000 --key 7", "2"),
    ("serve --nodes 3 --port= --key 7", "2"),
    (
        "serve --nodes 3 --port 9000 --key 18446744073709551616",
        "2",
    ),
    ("serve --nodes 3 --port 9000 --key -1", "2"),
    ("serve --nodes 3 --port 9000 --key 0x7", "2"),
    ("serve --nodes 3 --port 9000 --key 7 --dir=", "2"),
    ("serve --nodes 3 --port 9000 --key 7 --dir -d", "2"),
    ("serve --nodes 3 --port 9000 --key 7 --realm -a", "2"),
    ("serve --nodes 3 --port 9000 --key 7 --host here", "2"),
    ("serve --nodes 3 --port 9000 --key 7 more", "2"),
    ("--nodes 3 --port 9000 --key 7 serve", "2"),
    ("stream --port 9000", "2"),
    ("script --nodes 3 --dir data", "2"),
];

#[test]
fn reads_the_command_lines_of_clusters(rt: HostRuntime) {
    are_read(&rt, rt.alloc(), CLUSTERS);
}
