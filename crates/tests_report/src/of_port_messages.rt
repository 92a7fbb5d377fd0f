//! What `echo` prints, as messages.

use port_messages::told;
use std::test::Fail;
use test_rows::{Page, RowCall, try_rows};

struct Told;

impl RowCall for Told {
    fn put(&self, page: &mut Page, given: &[u8]) {
        let made = told(page.alloc(), given);
        if let Some(text) = page.given(made) {
            if text.as_slice() == given {
                page.put(b"the same");
            } else {
                page.put(text.as_slice());
            }
        }
    }
}

/// A text with an `echo`, and what becomes of it.
const ECHOES: &[u8] = br##"
echo using $x, 1.2 => dnl acrun: in place of echo: -q drops the line^JAC_MSG_RESULT([using $x, 1.2])
a=1^J  echo 'no  x'^Jb=2 => a=1^J  dnl acrun: in place of echo: -q drops the line^J  AC_MSG_RESULT([no  x])^Jb=2
if test -n "$a"; then^J  echo "a: $a (b)"^Jfi => if test -n "$a"; then^J  dnl acrun: in place of echo: -q drops the line^J  AC_MSG_RESULT([a: $a (b)])^Jfi
AS_IF([a], [^Jecho b]) => AS_IF([a], [^Jdnl acrun: in place of echo: -q drops the line^JAC_MSG_RESULT([b])^J  ])
AS_IF([a], [^Jecho b^J]) => AS_IF([a], [^Jdnl acrun: in place of echo: -q drops the line^JAC_MSG_RESULT([b])^J])
echo '  a ' => dnl acrun: in place of echo: -q drops the line^JAC_MSG_RESULT([  a ])
echo => dnl acrun: in place of echo: -q drops the line^JAC_MSG_RESULT([])
  echo "" =>   dnl acrun: in place of echo: -q drops the line^J  AC_MSG_RESULT([])
echo '' => dnl acrun: in place of echo: -q drops the line^JAC_MSG_RESULT([])
// other commands
echo a^J  exit 1 => dnl acrun: in place of echo: -q drops the line^JAC_MSG_RESULT([a])^J  dnl acrun: in place of exit: an error is printed^J  AC_MSG_ERROR([exit 1], [1])
unset a_b => dnl acrun: in place of unset: the variable is empty^Ja_b=
  unset a b_2 =>   dnl acrun: in place of unset: the variables are empty^J  a= b_2=
export a_b => dnl acrun: in place of export: no program that acrun starts sees the variable^J:
export a b => dnl acrun: in place of export: no program that acrun starts sees the variable^J:
if a; then^J  export b="c d"^Jfi => if a; then^J  dnl acrun: in place of export: no program that acrun starts sees the variable^J  b="c d"^Jfi
export PKG_CONFIG_PATH=/a:$b => dnl acrun: in place of export: no program that acrun starts sees the variable^JPKG_CONFIG_PATH=/a:$b
export [PKG_CONFIG_PATH]=/a => dnl acrun: in place of export: no program that acrun starts sees the variable^J[PKG_CONFIG_PATH]=/a
// a message before an error
echo "no $a"; exit 1 => dnl acrun: in place of echo and exit: the message is an error^JAC_MSG_ERROR([no $a], [1])
  echo no a ;  exit 2 =>   dnl acrun: in place of echo and exit: the message is an error^J  AC_MSG_ERROR([no a], [2])
echo 'a; exit 1';exit 3 => dnl acrun: in place of echo and exit: the message is an error^JAC_MSG_ERROR([a; exit 1], [3])
AS_IF([a], [^J  echo b; exit 1^J]) => AS_IF([a], [^J  dnl acrun: in place of echo and exit: the message is an error^J  AC_MSG_ERROR([b], [1])^J])
echo -n a; exit 1 => the same
echo a >&2; exit 1 => the same
echo a & exit 1 => the same
// `+=` stays
CFLAGS+=" -Wall" => the same
a=1; b+=c => the same
for a in b; do^Ja+=c^Jdone => the same
echo a+=b c+=d => dnl acrun: in place of echo: -q drops the line^JAC_MSG_RESULT([a+=b c+=d])
// lines that are broken
if a; then echo b; c=1; fi => if a; then^J  dnl acrun: in place of echo: -q drops the line^J  AC_MSG_RESULT([b])^J  c=1; fi
if a; then echo b; fi => if a; then^J  dnl acrun: in place of echo: -q drops the line^J  AC_MSG_RESULT([b])^J  fi
case $a in^J  b) exit 3 ;;^J  *) echo ;;^Jesac => case $a in^J  b)^J    dnl acrun: in place of exit: an error is printed^J    AC_MSG_ERROR([exit 3], [3])^J    ;;^J  *)^J    dnl acrun: in place of echo: -q drops the line^J    AC_MSG_RESULT([])^J    ;;^Jesac
AS_IF([a], [echo b]) => AS_IF([a], [^J  dnl acrun: in place of echo: -q drops the line^J  AC_MSG_RESULT([b])^J  ])
AS_IF([a], [echo b; exit 1], [c=1; exit 2]) => AS_IF([a], [^J  dnl acrun: in place of echo and exit: the message is an error^J  AC_MSG_ERROR([b], [1])^J  ], [c=1; exit 2])
for a in b; do echo $a; done => for a in b; do^J  dnl acrun: in place of echo: -q drops the line^J  AC_MSG_RESULT([$a])^J  done
  a=1; echo "b; c" ; d=1 =>   a=1;^J    dnl acrun: in place of echo: -q drops the line^J    AC_MSG_RESULT([b; c])^J    d=1
echo a;echo b => dnl acrun: in place of echo: -q drops the line^JAC_MSG_RESULT([a])^J  dnl acrun: in place of echo: -q drops the line^J  AC_MSG_RESULT([b])
echo a; b=1 => dnl acrun: in place of echo: -q drops the line^JAC_MSG_RESULT([a])^J  b=1
echo a; exit 0 => dnl acrun: in place of echo: -q drops the line^JAC_MSG_RESULT([a])^J  exit 0
echo a; exit => dnl acrun: in place of echo: -q drops the line^JAC_MSG_RESULT([a])^J  exit
echo a; exit 1; b => dnl acrun: in place of echo and exit: the message is an error^JAC_MSG_ERROR([a], [1])^J  b
b; echo a; exit 1 => b;^J  dnl acrun: in place of echo and exit: the message is an error^J  AC_MSG_ERROR([a], [1])
echo; exit 1 => dnl acrun: in place of echo: -q drops the line^JAC_MSG_RESULT([])^J  dnl acrun: in place of exit: an error is printed^J  AC_MSG_ERROR([exit 1], [1])
echo a; b; exit 1 => dnl acrun: in place of echo: -q drops the line^JAC_MSG_RESULT([a])^J  b; exit 1
echo a; exit 1 # b => dnl acrun: in place of echo: -q drops the line^JAC_MSG_RESULT([a])^J  exit 1 # b
// lines that aren't, since nothing takes the place of the command
echo "$(a)"; b=1 => the same
b=1; echo "$(a)" => the same
a; unset b; c => the same
a && echo b; c => the same
while b; do echo a; done => the same
echo "a" "b"; c => the same
// which stay
exit 0 => the same
exit 10 => the same
exit $a => the same
exit => the same
exit 1 # a => the same
unset a  b => the same
unset -f a => the same
unset => the same
export a=$(b) => the same
export a=b c => the same
export -p => the same
export 1a=b => the same
export $a => the same
export => the same
a; export b => the same
a && export b => the same
unset -v a => the same
unset $a => the same
unset => the same
while b; do^Jexit 1^Jdone => the same
for a in b; do^Jexit 1^Jdone => for a in b; do^Jdnl acrun: in place of exit: an error is printed^JAC_MSG_ERROR([exit 1], [1])^Jdone
a || exit 1 => the same
// what a shell reads otherwise
echo a  b => the same
echo -n a => the same
echo '-n' => the same
echo a > b => the same
echo a | b => the same
echo `a` => the same
echo a* => the same
echo "a\b" => the same
echo 'a$b' => the same
echo "a" 'b' => the same
echo 'a' b 'c' => the same
echo -n => the same
echo  a => the same
echo a dnl b => the same
echo [a] => the same
// where no call can be put
while b; do^Jecho a^Jdone => the same
for a in b; do^Jecho a^Jdone => for a in b; do^Jdnl acrun: in place of echo: -q drops the line^JAC_MSG_RESULT([a])^Jdone
a() {^Jecho a^J} => the same
a <<b^Jecho a^Jb => the same
a="^Jecho b^J" => the same
a &&^Jecho b => the same
"##;

#[test]
fn echoes(rt: HostRuntime) -> Result<(), Fail> {
    try_rows(rt.alloc(), &Told, ECHOES)
}
