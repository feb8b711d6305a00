//! What each help says of traces, statuses and codes.

/// The language of traces, how one is given, and what the answers mean.
pub const LANGUAGE: &str =
    "A trace is given on standard input, as in `hgd check < FILE`. It has one event a line:

  fork P C    join P C                   thread P starts thread C, or waits for its end
  lock T L    rdlock T L    unlock T L   thread T takes lock L alone or shared, or lets it go
  read T A N  write T A N                thread T reads or writes N bytes (1 to 64) at address A
  alloc T A N free T A N                 thread T makes N bytes (1 to 1048576) new memory, or frees them
  send T K    recv T K                   thread T sends message K, or receives it

One space stands before each number. Numbers are decimal, or hexadecimal after 0x. Threads are 0 to 1023, locks
0 to 65535, and messages 0 to 4294967295. A message is sent once and received at most once, by any thread: what its
sender did before happens before what its receiver does from then on. Empty lines and lines that begin with # are
skipped. A line has at most 256 bytes.

Status:
  0  the whole trace was read, races or not; with --error-exitcode only where there are none
  2  the last line printed is `refused line N code C`, of an event that the rules refuse; `bad line N`, of a line
     that is no event; or `not empty`, where `create` or `migrate` found bytes; or there is no race of that number
  3  a fault, told on standard error as `fault C`
  4  a bad command line

Codes of refused lines, of which the first that applies is told, in this order:
  2  a thread above 1023                  13  another thread's hold excludes it
  3  a length that is not allowed         14  the thread does not hold that lock
  4  address and length pass 2^64         15  the thread holds 64 locks
  5  the acting thread is not alive       23  the message was sent before
  6  the forked number was used before    24  the message was not sent
  7  a thread joins itself                25  the message was received before
  8  the joined thread is not alive       16  there would be more than 1048576 segments
  9  the joined thread holds a lock       17  2^58 events were accepted
 12  the thread holds that lock already   19  262144 sets of threads and locks are in use
Codes of faults:
 10  a commit of `serve` had failed       20  the pages of the store have no room
 11  the files are not a store's          21  a stream, a file or a listener failed
 19  the sets of the store have no room   22  memory was refused";

/// Who may connect to a server.
pub const CONNECTING: &str =
    "To a port any user of this machine may connect, as any source, without a name. Such a client can send events under
the numbers of another source, read the reports, and use up --connections. Where not every user may do that, give
`unix` in place of a port: clients then connect to the file `socket` in DIR, and only those can who may enter DIR and
write to that file, which is made with the rights 0777 less the umask (022 leaves its owner alone).";
