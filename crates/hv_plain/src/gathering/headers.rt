//! The built-in headers.
ghost use Rattle.std.specs.Prelude.{◌≡◌};
ghost use Rattle.std.specs.Option.{option_map};
ghost use Rattle.hv_plain.specs.gathering.Headers as headers;

const STDDEF: &[u8] = b"#ifndef __HC_STDDEF\n\
#define __HC_STDDEF\n\
typedef unsigned long size_t;\n\
typedef long ptrdiff_t;\n\
#define NULL ((void *)0)\n\
#endif\n";

const STDIO: &[u8] = b"#ifndef __HC_STDIO\n\
#define __HC_STDIO\n\
#include <stddef.h>\n\
#define EOF (-1)\n\
int putchar(int);\n\
int getchar(void);\n\
int puts(const char *);\n\
int printf(const char *, ...);\n\
#endif\n";

const STDLIB: &[u8] = b"#ifndef __HC_STDLIB\n\
#define __HC_STDLIB\n\
#include <stddef.h>\n\
#define EXIT_SUCCESS 0\n\
#define EXIT_FAILURE 1\n\
void *malloc(size_t);\n\
void *calloc(size_t, size_t);\n\
void free(void *);\n\
void exit(int);\n\
#endif\n";

const STRING: &[u8] = b"#ifndef __HC_STRING\n\
#define __HC_STRING\n\
#include <stddef.h>\n\
void *memcpy(void *, const void *, size_t);\n\
void *memset(void *, int, size_t);\n\
#endif\n";

const LIMITS: &[u8] = b"#ifndef __HC_LIMITS\n\
#define __HC_LIMITS\n\
#define CHAR_BIT 8\n\
#define CHAR_MIN (-128)\n\
#define CHAR_MAX 127\n\
#define UCHAR_MAX 255\n\
#define SHRT_MIN (-32768)\n\
#define SHRT_MAX 32767\n\
#define INT_MIN (-2147483647 - 1)\n\
#define INT_MAX 2147483647\n\
#define UINT_MAX 4294967295U\n\
#define LONG_MIN (-9223372036854775807L - 1)\n\
#define LONG_MAX 9223372036854775807L\n\
#define ULONG_MAX 18446744073709551615UL\n\
#endif\n";

const STDBOOL: &[u8] = b"#ifndef __HC_STDBOOL\n\
#define __HC_STDBOOL\n\
#define bool _Bool\n\
#define true 1\n\
#define false 0\n\
#endif\n";

const STDINT: &[u8] = b"#ifndef __HC_STDINT\n\
#define __HC_STDINT\n\
typedef signed char int8_t;\n\
typedef short int16_t;\n\
typedef int int32_t;\n\
typedef long int64_t;\n\
typedef unsigned char uint8_t;\n\
typedef unsigned short uint16_t;\n\
typedef unsigned int uint32_t;\n\
typedef unsigned long uint64_t;\n\
#endif\n";

/// The text of the built-in header of this name, or `None` where there is none.
// SAME: headers
pub fn builtin_header(name: &str) -> Option<&'static [u8]>
    ensures { option_map (λ text. text.now) result ≡ headers.header_text name.now }
{
    match name {
        "stddef.h" => Some(STDDEF),
        "stdio.h" => Some(STDIO),
        "stdlib.h" => Some(STDLIB),
        "string.h" => Some(STRING),
        "limits.h" => Some(LIMITS),
        "stdbool.h" => Some(STDBOOL),
        "stdint.h" => Some(STDINT),
        _ => None,
    }
}
