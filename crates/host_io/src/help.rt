// The texts that --help and --version write. `trials/manual.sh --write` puts the usage into the man
// page.

pub(crate) const HELP: &str = "\
btrsend checks the streams that `btrfs send` writes, merges a chain of them into one stream, and
keeps snapshots in one crash-safe file, the store. It needs no Btrfs.

usage: btrsend audit [GUARD..] STORE|none [OVERRIDE..] FILE ..
       btrsend compose STORE|none [OVERRIDE..] FILE .. > MERGED
       btrsend export STORE|none [OVERRIDE..] FILE .. | btrfs receive FOLDER
       btrsend squash STORE|none [OVERRIDE..] FILE > SMALLER
       btrsend init STORE
       btrsend receive [GUARD..] STORE [OVERRIDE..] FILE ..
       btrsend list STORE
       btrsend cat STORE NAME PATH > BYTES
       btrsend restore STORE NAME | btrfs receive FOLDER
       btrsend show STORE NAME
       btrsend drop STORE NAME
       btrsend scrub STORE
       btrsend send STORE NAME > STREAM
       btrsend stream STORE NAME > STREAM
       btrsend tar STORE NAME | tar -x
       btrsend interleave STORE SCHEDULE [GUARD..] FILE ..
       btrsend dump FILE
       btrsend text FILE > TEXT
       btrsend pack FILE > STREAM
       btrsend gen COUNT SEED > CHAIN
       btrsend trial COUNT SEED
       btrsend --help | --version

A chain that is checked, merged and restored; and the same in a store:

  export BTRSEND_EXPLAIN=1    # adds an explanation to each message, as on a terminal: for cron
  set -o pipefail
  btrsend audit none monday tuesday wednesday
  btrsend compose none monday tuesday wednesday > merged
  btrsend export none merged | btrfs receive /restored

  btrsend init backups
  btrsend receive backups monday tuesday wednesday
  btrsend restore backups tuesday | btrfs receive /restored

Every day:

  audit     checks each command of all FILEs, as a receiver would, and names the first that it
            would refuse. If there is none, it writes `accepted PARTS COMMANDS`
  compose   merges a chain into one stream that makes its last snapshot. The first FILE is a full
            stream, or its parent is in STORE; each later one is based on the one before it. Each
            FILE is read twice, so it cannot be a pipe, and must not change meanwhile
  export    writes the streams of all FILEs for `btrfs receive`, with commands in between that
            change nothing and make it open the right file. A merged stream always needs this
  init      makes STORE, if there is nothing at that path
  receive   receives the streams of all FILEs into STORE. It writes `complete NAME UUID CTRANSID`
            for each snapshot once that survives a power loss. A snapshot that is cut off stays
            unfinished: `drop` it, and receive its stream again
  list      writes a line for each snapshot: NAME UUID CTRANSID complete|unfinished PARENT
  cat       writes the bytes of the file at PATH of a snapshot
  restore   writes a snapshot as a full stream for `btrfs receive`, which makes it right: owners,
            ACLs, capabilities and times too. A stream that is sent with -p the restored snapshot
            needs parent:UUID:CTRANSID in front of its FILE, as `list` prints a PARENT

More:

  show      writes a line for each inode, extended attribute and name of a snapshot
  drop      removes a snapshot, complete or not. Those that are based on it stay, and STORE does
            not get smaller
  scrub     reads all of STORE, compares its checksums, and writes `scrub GROUPS UNSEALED`
  send      writes a snapshot as a full stream for another store
  stream    writes the stream of a snapshot as it was received: incremental if that was
  tar       writes a snapshot as a tar archive, with extended attributes, links and holes
  squash    writes the one stream of FILE without the data that its snapshot does not have at its
            end. It makes the same snapshot. Like `compose`, it reads FILE twice
  interleave   receives the streams of up to ten FILEs into STORE in turns. Each digit of SCHEDULE
            is the number of a FILE, from 0, of which one command is received. Then each FILE goes
            on to its end. If one is refused, the others go on. GUARDs come before their FILE
  dump      prints the commands of FILE, a line each
  text      prints the streams of FILE in full, as a text to edit, to compare and to keep
  pack      writes the streams that such a text in FILE means, in one spelling

For testing:

  gen       writes a valid chain of COUNT snapshots, 1 to 4096, that SEED gives
  trial     composes that chain in memory, and writes
            `trial PARTS COMMANDS IN OUT CLONES REDIRECTED`

  STORE     a file that `btrsend init` made. While a program writes to it, no other can use it
  none      no store: the first stream must be a full one
  FILE      a file that `btrfs send` wrote, with one stream or several, or a pipe (not of compose
            or squash)
  OVERRIDE  says something of the FILE after it. There can be both, in any order:
            name:NEW gives its snapshot the name NEW, for tools that name all alike
            parent:UUID:CTRANSID says which snapshot it means by this UUID: see restore
  NAME      the name of a snapshot; PATH is a path in it, such as dir/file
  escaped:WORD   the NAME, PATH or NEW that `list` and `show` print as WORD, if it is not UTF-8
  GUARD     a limit: guard:bytes=N of data, guard:commands=N, guard:nodev for no device nodes, or
            guard:end=N for the end of a WRITE, CLONE or TRUNCATE

Protocol versions 1 and 2 are read. What `btrfs send --compressed-data` writes is refused.

Status 0: everything was done. With any other, a message on standard error says why, and a stream
that was written is not to be used. The man page has each status and each refusal.
";

pub(crate) const VERSION: &str = "btrsend 0.2.0\n";
